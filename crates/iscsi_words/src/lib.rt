//! What the words of the command line ask for.
#![tactic(auto)]

mod capture_comparing;
mod capture_words;
mod commands;
mod examples;
mod filter;
mod telling;
mod words;

pub use capture_comparing::{CaptureComparison, CaptureComparisonFault, STDIN, named};
pub use capture_words::{CaptureJob, CaptureWork, capture_names};
pub use filter::{Filter, Work};
pub use telling::Telling;
pub use words::{Job, read_words};
