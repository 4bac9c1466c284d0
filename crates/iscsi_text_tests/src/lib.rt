//! Tests of `iscsi_text`: texts and numerals by example.
#![tactic(auto)]

#[cfg(test)]
mod tests;
#[cfg(test)]
mod uses;
