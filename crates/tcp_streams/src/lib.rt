//! One direction of a TCP connection, put together from its segments in whatever order they come
//! (RFC 9293, sections 3.4 and 3.10).
#![tactic(auto)]

mod direction;
mod fault;
mod laws;
mod placing;
mod waiting;
mod whole;

pub use direction::Direction;
pub use fault::SegmentFault;
pub use laws::{given_is_determined, no_stream_has_a_clash, order_makes_no_difference};
pub use whole::{Segment, reassemble};
