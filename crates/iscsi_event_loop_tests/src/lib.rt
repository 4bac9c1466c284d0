//! Tests of `iscsi_event_loop`: several sessions at a time over sockets.
#![tactic(auto)]

#[cfg(test)]
mod asserts;
#[cfg(test)]
mod tests;
#[cfg(test)]
mod uses;
