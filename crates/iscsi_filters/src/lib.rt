//! Filters of one stream, from one reader to one writer: `show` and `normalise`, of bytes or hex text.
#![tactic(auto)]

mod hex_text;
mod program;
mod work;

pub use hex_text::{line, read_bytes};
pub use program::{StreamFilter, run_filter_program, run_filter_words};
pub use work::{StreamWork, run_work, status};
