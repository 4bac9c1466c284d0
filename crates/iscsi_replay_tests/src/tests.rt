//! Jobs by example: found in recordings, as text, and done again.

mod aborts;
mod live;
mod memory;
mod recordings;
mod texts;
