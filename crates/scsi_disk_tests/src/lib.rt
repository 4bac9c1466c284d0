//! Tests of `scsi_disk`: orders on disks and stores, by rows.
#![tactic(auto)]

#[cfg(test)]
mod tests;
#[cfg(test)]
mod uses;
