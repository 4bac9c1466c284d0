//! The job of a recorded session, done again at a live target.
#![tactic(auto)]

mod comparing;
mod delays;
mod fault;
mod ignoring;
mod kinds;
mod live;
mod peer;
mod replaying;
mod writing;

pub use comparing::{are_same, is_unit_attention};
pub use delays::Delays;
pub use fault::{LiveFault, Lost, ReplayFault};
pub use ignoring::Ignored;
pub use kinds::{Kinds, words_of_command};
pub use live::{Account, Live};
pub use peer::{Peer, Tcp};
pub use replaying::{Plan, Replaying, Tally};
pub use writing::writes;
