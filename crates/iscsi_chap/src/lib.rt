//! The calculations of CHAP (RFC 1994) as iSCSI uses it (RFC 7143, sections 6.1 and 12.1.3): the
//! response to a challenge, large binary values, and a comparison that looks at each byte whatever
//! differs. Nothing here draws a random number: a challenge and an identifier are handed in.
#![tactic(auto)]

mod algorithm;
mod binary;
pub mod laws;
mod responding;

pub use algorithm::Algorithm;
pub use binary::{read_binary, write_binary};
pub use responding::{Response, is_equal};
