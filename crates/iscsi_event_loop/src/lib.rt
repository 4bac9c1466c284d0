//! A target's service for several sessions at a time, in one thread, over one disk (RFC 7143).
#![tactic(auto)]

mod accepting;
mod budget;
mod configuration;
mod connection;
mod growth;
pub mod laws;
mod limited;
mod lines;
mod local_portal;
mod manner;
mod numbers;
mod pace;
mod peer;
mod room;
mod server;
mod service;
mod session_line;
mod system;
mod tally;
mod wording;

pub use iscsi_options::{
    LEAST_MEMORY, LOGIN_WITHIN, LONGEST_ASKED, Limits, MOST_AT_ONCE, MOST_MEMORY, Options,
    PortalOption, SHORTEST_ASKED, Stop, UnitOptions,
};
pub use iscsi_serving::SessionEnd;
pub use limited::LimitedStore;
pub use server::{RunEnd, Server};
pub use service::{memory_store, serve_at_once, serve_in_turn};
