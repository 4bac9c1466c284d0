//! A target's session, but for its commands: its login, its numbers, and its answers to pings, text
//! requests, task management and logouts (RFC 7143). It knows no disk.
#![tactic(auto)]

mod config;
mod data_in_limit;
mod inbound;
mod initiators;
pub mod laws;
mod numbers;
mod received;
mod session;
mod status;

pub use config::Config;
pub use data_in_limit::DataInLimit;
pub use inbound::{Asks, Inbound, InboundRequest, SessionRequest};
pub use numbers::Numbers;
pub use received::Received;
pub use session::Session;
// (it stands in definitions that proofs above take apart: why a login is refused)
pub use status::Status;
