//! The service of a disk as the words of `serve` ask for it, and a program of it alone.
#![tactic(auto)]

mod program;
mod serial;
mod storing;

pub use program::{run_serve_program, run_serve_words};
pub use storing::{DiskFault, serve_storage};
