//! Tests of `iscsi_chap`, `iscsi_access` and `iscsi_secrets`: responses, logins of real initiators, and
//! files of secrets, by example.
#![tactic(auto)]

#[cfg(test)]
mod asserts;
#[cfg(test)]
mod responding_uses;
#[cfg(test)]
mod secrets_uses;
#[cfg(test)]
mod tests;
#[cfg(test)]
mod uses;
