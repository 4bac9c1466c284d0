//! Tests of `iscsi_captures`, `iscsi_explain`, `capture_file` and `tcp_streams` from outside, and
//! what another program does with them.
#![tactic(auto)]

#[cfg(test)]
mod asserts;
#[cfg(test)]
mod explain_uses;
#[cfg(test)]
mod file_uses;
#[cfg(test)]
mod stream_uses;
#[cfg(test)]
mod tests;
#[cfg(test)]
mod uses;
