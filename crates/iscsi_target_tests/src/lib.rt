//! Tests of `iscsi_target`: sessions as dialogues, ends of streams and configurations.
#![tactic(auto)]

#[cfg(test)]
mod asserts;
#[cfg(test)]
mod tests;
#[cfg(test)]
mod uses;
