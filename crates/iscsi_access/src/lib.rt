//! CHAP in the security stage of a login, at the target (RFC 7143, section 12.1.3; RFC 1994): what
//! each text leads to. Nothing here draws a random number: the challenge and the identifier of a
//! login are handed in. No type that holds a secret has `Debug`, and no fault has a secret in it.
#![tactic(auto)]

mod chap;
mod exchange;
pub mod laws;
mod reading;
mod spoken;
mod verdict;

pub use chap::{Account, Chap, ChapFault};
pub use spoken::Spoken;
pub use verdict::{Progress, Said, Verdict};
