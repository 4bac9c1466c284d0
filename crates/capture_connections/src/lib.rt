//! The TCP connections of a capture: which segment belongs to which, and what is known of each.
#![tactic(auto)]

mod belonging;
mod connections;
mod ends;
mod fault;
mod half;
mod heard;
mod laws;

pub use belonging::{Last, Start};
pub use connections::{Connection, Connections, MOST_WAITING, PORT};
pub use ends::{Ends, Side};
pub use fault::ConnectionsFault;
pub use half::{Half, Stop, WAITING};
pub use heard::{Heard, Said, heard_of};
pub use laws::{connections_are_private, directions_are_determined};
