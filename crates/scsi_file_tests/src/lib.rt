//! Tests of `scsi_file` from outside, and what another program does with it.
#![tactic(auto)]

#[cfg(test)]
mod tests;
#[cfg(test)]
mod uses;
