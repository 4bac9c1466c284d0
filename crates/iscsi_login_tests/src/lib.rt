//! Tests of `iscsi_login`: the table of keys, worked logins and the offer texts, by example.
#![tactic(auto)]

#[cfg(test)]
mod tests;
#[cfg(test)]
mod uses;
