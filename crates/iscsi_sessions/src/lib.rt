//! Several sessions of a target at a time, over one store (RFC 7143).
#![tactic(auto)]

pub mod laws;
mod offered;
mod read_buffer;
mod session_table;
mod slot;

pub use offered::Offered;
pub use read_buffer::MOST_READ;
pub use session_table::SessionTable;
