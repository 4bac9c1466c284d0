//! Two streams compared, from files and readers, of bytes or of hex text.
#![tactic(auto)]

mod comparing;
mod files;
mod program;

pub use comparing::{ComparisonFault, Sameness, compare_bytes, compare_hex};
pub use files::Comparison;
pub use program::{run_comparison_program, run_comparison_words};
