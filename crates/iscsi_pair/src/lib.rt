//! Two ends of an iSCSI session in one process, with the bytes between them (RFC 7143, section 4).
#![tactic(auto)]

pub mod laws;
mod pair;
mod serving;
mod step;

pub use pair::{Pair, outcomes_over};
pub use serving::serve_requests;
pub use step::{EndFault, RunFault, Step};
