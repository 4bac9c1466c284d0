//! Whether two streams of iSCSI PDUs have the same meaning, and where they part (RFC 7143, section
//! 11).
#![tactic(auto)]

mod fault;
mod in_step;
pub mod laws;
pub mod same_job;
mod side;
mod verdict;

pub use fault::{CompareFault, Which};
pub use in_step::compare;
pub use verdict::Verdict;
