//! Tests of `scsi_unit`: what a unit tells of itself, by example.
#![tactic(auto)]

#[cfg(test)]
mod asserts;
#[cfg(test)]
mod tests;
