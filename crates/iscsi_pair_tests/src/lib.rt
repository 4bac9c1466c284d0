//! Tests of `iscsi_pair`: logins, commands and failures of two ends, over every kind of schedule.
#![tactic(auto)]

#[cfg(test)]
mod asserts;
#[cfg(test)]
mod tests;
#[cfg(test)]
mod uses;
