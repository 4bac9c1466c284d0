//! Tests of `iscsi_job`, `iscsi_job_text` and `iscsi_replay`: jobs of recordings, as text, and done again.
#![tactic(auto)]

#[cfg(test)]
mod asserts;
#[cfg(test)]
mod tests;
