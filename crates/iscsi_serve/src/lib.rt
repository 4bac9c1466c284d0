//! A target's session over a stream, and on a socket (RFC 7143).
#![tactic(auto)]

mod serving;
mod session;
mod session_fault;

pub use iscsi_serving::ServeFault;
pub use serving::serve_one;
pub use session::{TARGET_NAME, configuration, serve_stream};
pub use session_fault::SessionFault;
