//! Tests of `scsi_cdb`, against bytes worked out by hand from the tables of SPC-4 and SBC-3.
#![tactic(auto)]

#[cfg(test)]
mod tests;
#[cfg(test)]
mod uses;
