//! What all ways of serving a disk share: who may log in, and why a service, or one of its sessions, ends.
#![tactic(auto)]

mod access;
mod configuring;
mod fault;
mod session_end;

pub use access::{Access, AccessFault, EVERYBODY};
pub use configuring::configuration;
pub use fault::ServeFault;
pub use session_end::SessionEnd;
