//! The tasks of a session: which use of an initiator task tag an answer belongs to (RFC 7143, sections
//! 4.2.2.2 and 11.2.1.8).
#![tactic(auto)]

mod numbering;
mod tasks;
mod uses;

pub use numbering::{acknowledged, answered_tag, counted};
pub use tasks::Tasks;
pub use uses::Use;
