//! What a service of a disk is asked for: where it listens, how many sessions it takes, and how long a
//! peer may keep its slot. And the numbers that its words spell.
#![tactic(auto)]

mod digits;
mod limits;
mod options;

pub use digits::number_of;
pub use limits::{LAST_WRITE, LOGIN_WITHIN, Limits, sooner};
pub use options::{
    AT_ONCE, DATA_IN, LEAST_MEMORY, LONGEST_ASKED, LONGEST_PIECE, MOST_AT_ONCE, MOST_MEMORY,
    Options, PortalOption, SEGMENT, SHORTEST_ASKED, Stop, UnitOptions,
};
