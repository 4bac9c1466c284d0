//! Tests of the jobs of `lanthovur` from outside: the lines and statuses of faults, and images.
#![tactic(auto)]

#[cfg(test)]
mod asserts;
#[cfg(test)]
mod tests;
