//! What a service of several sessions at a time is asked for.

use crate::limits::Limits;
use iscsi_login::Preferences;
use std::net::IpAddr;

/// The most sessions at a time.
pub const MOST_AT_ONCE: u16 = 64;

/// How many sessions at a time, if no other number is asked for.
pub const AT_ONCE: u16 = 16;

/// The shortest segment and burst that a key can say, in bytes (RFC 7143, sections 13.12 to 13.14).
pub const SHORTEST_ASKED: u32 = 512;

/// The longest segment and burst that may be asked for, in bytes (own rule): 64 slots then hold
/// segments of 64 MiB at most.
pub const LONGEST_ASKED: u32 = 1_048_576;

/// The longest segment to the target, if no other one is asked for: so a long write is few PDUs.
pub const SEGMENT: u32 = 262_144;

/// The fewest bytes that may be asked for: those of 64 blocks.
pub const LEAST_MEMORY: u64 = 32_768;

/// The most bytes that may be asked for: those of 2^40 blocks.
pub const MOST_MEMORY: u64 = 562_949_953_421_312;

/// How many bytes a Data-In has at most, if no other number is asked for: libiscsi takes memory from the system
/// for each longer one, and gives it back.
pub const DATA_IN: u32 = 131_072;

/// The most bytes that a loop of both ends writes before they are read.
pub const LONGEST_PIECE: u32 = 4096;

/// After what a service ends.
#[derive(Clone, Copy, Debug)]
pub enum Stop {
    /// After so many connections.
    Connections(u16),
    /// After so many completed logins.
    Logins(u16),
}

impl Stop {
    ghost use Rattle.std.specs.Prelude.{◌≡◌};
    ghost use Rattle.iscsi_options.specs.Options.{stop_count};

    /// How many of them.
    pub fn count(&self) -> u16
        ensures { result ≡ stop_count self.now }
    {
        match self {
            Stop::Connections(count) | Stop::Logins(count) => *count,
        }
    }
}

/// What discovery tells of the address at which a service is.
#[derive(Clone, Copy, Debug)]
pub enum PortalOption<'a> {
    /// Nothing.
    Untold,
    /// The address by which the connection came.
    Local,
    /// This one, `HOST:PORT`.
    Other(&'a [u8]),
}

/// What a disk is to tell of itself, beyond the profile and its serial number.
#[derive(Clone, Copy, Debug)]
pub struct UnitOptions {
    /// Whether it takes no write.
    pub write_protected: bool,
    /// Whether it is thin: it takes WRITE SAME, by which initiators give blocks back.
    pub thin: bool,
    /// Whether it has a write cache: what was written lasts once it is flushed.
    pub write_back: bool,
}

/// What a service of several sessions at a time is asked for.
#[derive(Clone, Copy, Debug)]
pub struct Options<'a> {
    /// The address to listen at.
    pub listen: IpAddr,
    /// The port; 0 is one that the system picks.
    pub port: u16,
    /// After what it ends; none: never.
    pub stop: Option<Stop>,
    /// How many sessions at a time, 1 to 64.
    pub at_once: u16,
    /// The target's name: 1 to 223 bytes, each of `!` to `~`.
    pub name: &'a [u8],
    /// The address that initiators are told to use.
    pub portal: PortalOption<'a>,
    /// What the disk tells of itself; none: what the bare profile has.
    pub unit: Option<UnitOptions>,
    /// How long a peer may keep its slot.
    pub limits: Limits,
    /// What the target prefers in a login. `max_recv` and `max_burst` are 512 to 1048576 bytes, and
    /// `first_burst` is no longer than `max_burst`.
    pub preferences: Preferences,
    /// How many bytes a Data-In has at most, a multiple of 512 from 512 on; none: as many as the initiator
    /// takes in one segment.
    pub data_in: Option<u32>,
    /// Whether the port is printed.
    pub print_port: bool,
    /// Whether logins, and ends that are no fault, have no line on standard error.
    pub quiet: bool,
}
