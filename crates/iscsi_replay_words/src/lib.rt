//! The words `job` and `replay` of the command `lanthovur`, and what they do.
#![tactic(auto)]

mod data_file;
mod ending;
mod help;
mod job_words;
mod jobs;
mod program;
mod replay_words;
mod replays;
mod tap;
mod words;

pub use help::PROGRAM;
pub use program::run_recorded;
