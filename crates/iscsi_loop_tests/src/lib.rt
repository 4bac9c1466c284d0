//! Tests of `iscsi_loop`: both ends over a socket and in memory, scripts and lines.
#![tactic(auto)]

#[cfg(test)]
mod asserts;
#[cfg(test)]
mod tests;
