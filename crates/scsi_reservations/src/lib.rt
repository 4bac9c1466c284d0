//! Persistent reservations of a logical unit: who is registered, who holds a reservation, and which
//! commands of whom it keeps out (SPC-4, section 5.13).
#![tactic(auto)]

mod acting;
mod ask;
mod data;
mod kind;
pub mod laws;
mod port;
mod refusal;
mod report;
mod reservations;

pub use ask::{Action, Ask, Verdict};
pub use kind::{Access, Kind};
pub use port::Port;
pub use refusal::Refusal;
pub use report::Report;
pub use reservations::{Holding, Registration, Reservations};
