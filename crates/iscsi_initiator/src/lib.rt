//! The initiator's end of an iSCSI session: its login, its requests and their outcomes (RFC 7143).
#![tactic(auto)]

mod config;
mod fault;
mod initiator;
pub mod laws;
mod outstanding;
mod request;
mod session;
mod target_pdu;

pub use config::Config;
pub use fault::{InitiatorFault, Key};
pub use initiator::Initiator;
pub use request::{Done, Refused, Request, SubmitFault};
