//! When connections are accepted, and what an error of that means.

use crate::manner::Manner;
use std::io::{self, ErrorKind};
use std::time::{Duration, Instant};

/// For how many seconds nobody is accepted after an error that is the system's, unless a slot gets
/// free.
const REST: u64 = 1;

/// Errors of a connection that waited to be accepted, by their numbers on Linux. They are EPERM of
/// a filter, ENONET, EPROTO, ENOPROTOOPT, EOPNOTSUPP, ENETDOWN, ENETUNREACH, ECONNABORTED,
/// EHOSTDOWN and EHOSTUNREACH.
const OF_A_CONNECTION: [i32; 10] = [1, 64, 71, 92, 95, 100, 101, 103, 112, 113];

/// Those of them that pass where connections are taken in turn: EPROTO and ECONNABORTED.
const OF_ONE_IN_TURN: [i32; 2] = [71, 103];

/// What an error of accept means.
#[derive(Clone, Copy)]
pub enum AcceptError {
    /// Nobody waits.
    Nobody,
    /// The connection that waited is gone, or a signal came. Others may wait.
    Gone,
    /// The system has no room for a connection, such as no descriptor or no memory.
    NoRoom,
}

impl AcceptError {
    /// What this error means for a service that takes connections in this manner.
    pub fn of(error: &io::Error, manner: &Manner) -> AcceptError {
        match error.kind() {
            ErrorKind::WouldBlock => AcceptError::Nobody,
            ErrorKind::Interrupted => AcceptError::Gone,
            _ => match error.raw_os_error() {
                Some(number) if is_of_a_connection(number, manner) => AcceptError::Gone,
                _ => AcceptError::NoRoom,
            },
        }
    }
}

// Whether an error of this number is of the connection that waited.
fn is_of_a_connection(number: i32, manner: &Manner) -> bool {
    match manner {
        Manner::AtOnce => OF_A_CONNECTION.contains(&number),
        Manner::InTurn(_) => OF_ONE_IN_TURN.contains(&number),
    }
}

/// Whether connections are accepted now.
#[derive(Clone, Copy)]
pub struct Accepting {
    /// Whether a connection may wait.
    is_asked: bool,
    /// Since when nobody is accepted, since the system had no room.
    rests_since: Option<Instant>,
    /// Whether that was told since the last connection was accepted.
    is_told: bool,
}

impl Accepting {
    /// Connections are accepted, and one may wait.
    pub fn new() -> Accepting {
        Accepting {
            is_asked: true,
            rests_since: None,
            is_told: false,
        }
    }

    /// Whether a connection that waits is to be accepted at this time.
    pub fn is_due(&self, now: Instant) -> bool {
        self.is_asked && self.left(now).is_none()
    }

    /// How long nobody is accepted from this time on, unless a slot gets free.
    pub fn left(&self, now: Instant) -> Option<Duration> {
        let rested = now.saturating_duration_since(self.rests_since?);
        Duration::from_secs(REST)
            .checked_sub(rested)
            .filter(|left| !left.is_zero())
    }

    /// A connection may wait.
    pub fn ask(&mut self) {
        self.is_asked = true;
    }

    /// Nobody waits, until the system tells that somebody does.
    pub fn nobody(&mut self) {
        self.is_asked = false;
    }

    /// A connection was accepted.
    pub fn accepted(&mut self) {
        self.rests_since = None;
        self.is_told = false;
    }

    /// The system had no room at this time. Says whether that is to be told.
    pub fn rest(&mut self, now: Instant) -> bool {
        let is_new = !self.is_told;
        self.rests_since = Some(now);
        self.is_told = true;
        is_new
    }

    /// A slot got free, and with it what its connection took.
    pub fn resume(&mut self) {
        self.rests_since = None;
    }
}
