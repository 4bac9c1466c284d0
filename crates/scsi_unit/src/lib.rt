//! What a logical unit does beyond the profile: its names, its limits, its modes, and the commands that
//! it takes (SPC-4 and SBC-3).
#![tactic(auto)]

mod data;
mod deeds;
mod designators;
pub mod laws;
mod modes;
mod pages;
mod spellings;
mod supported;
mod telling;
mod unit;
mod write_cache;

pub use unit::{LONGEST_SERIAL, LogicalUnit, is_serial};
pub use write_cache::asks_to_last;
