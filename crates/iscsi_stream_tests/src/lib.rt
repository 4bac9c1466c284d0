//! Tests of `iscsi_stream`: streams, lines and canonical streams by example.
#![tactic(auto)]

#[cfg(test)]
mod asserts;
#[cfg(test)]
mod tests;
#[cfg(test)]
mod uses;
