//! Tests of `iscsi_compare`: two streams, and two runs of one job, by example.
#![tactic(auto)]

#[cfg(test)]
mod asserts;
#[cfg(test)]
mod same_job;
#[cfg(test)]
mod tests;
#[cfg(test)]
mod uses;
