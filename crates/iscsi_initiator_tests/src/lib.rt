//! Tests of `iscsi_initiator`: sessions as dialogues and configurations.
#![tactic(auto)]

#[cfg(test)]
mod asserts;
#[cfg(test)]
mod tests;
#[cfg(test)]
mod uses;
