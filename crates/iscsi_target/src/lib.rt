//! A target's session: its login, and its full feature phase (RFC 7143).
#![tactic(auto)]

mod admission;
mod alike;
mod due;
mod fault;
mod incoming;
mod intake;
pub mod laws;
mod machine;
mod open_write;
mod queued_request;
mod scsi_response;
mod target;
mod tasks;

// (`Due` and `Status` stand in definitions that proofs above take apart: an open write, and why a
// login is refused)
pub use alike::{Answered, answer_pieces, answers_alike};
pub use due::Due;
pub use fault::TargetFault;
pub use iscsi_target_session::{Config, DataInLimit, Status};
pub use target::{FIRST_STAT_SN, Target};
