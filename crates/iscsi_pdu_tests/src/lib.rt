//! Tests of `iscsi_pdu`, against headers worked out by hand from the tables of RFC 7143.
#![tactic(auto)]

#[cfg(test)]
mod tests;
#[cfg(test)]
mod uses;
