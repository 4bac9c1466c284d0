//! The job of a recorded session: what its initiator asked, and what came of each request (RFC 7143,
//! section 11).
#![tactic(auto)]

mod answers;
mod fault;
mod item;
mod recorder;
mod recording;
mod requests;
mod state;

pub use fault::{JobFault, Reason, Which};
pub use item::{Asked, Ended, Item, Moves, Outcome, outcome_of};
pub use recorder::{MOST_DATA, MOST_HELD, Recorder};
pub use recording::{At, Noted};
pub use state::Recording;
