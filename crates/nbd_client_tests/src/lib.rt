//! Tests of `nbd_wire` and `nbd_client` from outside, and what another program does with them.
#![tactic(auto)]

#[cfg(test)]
mod asserts;
#[cfg(test)]
mod tests;
#[cfg(test)]
mod uses;
