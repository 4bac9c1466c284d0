//! Tests of `scsi_reservations`: every action in every state of three ports, blocks and data, by example.
#![tactic(auto)]

#[cfg(test)]
mod asserts;
#[cfg(test)]
mod tests;
