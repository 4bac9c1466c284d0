//! Both ends of a session, over a socket of this machine or in memory, as a script says (RFC 7143).
#![tactic(auto)]

mod carrier;
mod command;
mod loop_script;
mod report;
mod script;
mod socket_pair;

pub use carrier::{Carrier, Channel};
pub use iscsi_options::LONGEST_PIECE;
pub use loop_script::{run_loop, run_over};
