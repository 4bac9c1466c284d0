//! Tests of `iscsi_serve`: sessions over a stream and over sockets.
#![tactic(auto)]

#[cfg(test)]
mod asserts;
#[cfg(test)]
mod tests;
#[cfg(test)]
mod uses;
