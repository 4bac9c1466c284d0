//! Why a job is not done again to its end.

ghost use Rattle.std.specs.Prelude.{◌≡◌};
ghost use Rattle.iscsi_replay.specs.declared.fault.LiveFault.TheVariants as live;
ghost use Rattle.iscsi_replay.specs.declared.fault.ReplayFault.TheVariants as replay;

use iscsi_initiator::{InitiatorFault, SubmitFault};
use std::alloc::AllocError;
use std::fmt::{self, Debug, Formatter, Write};
use std::io::{self, ErrorKind};
use thiserror::Error;

/// Why a connection is lost.
#[derive(Clone, Copy, Debug, Error)]
pub enum Lost {
    /// The target closed it.
    #[error("the target closed the connection")]
    Closed,
    /// The target did not answer a request within the time that one waits for it.
    #[error("the target does not answer")]
    Late,
    /// It failed otherwise.
    #[error("connection lost")]
    Failed,
}

impl From<io::Error> for Lost {
    fn from(error: io::Error) -> Lost {
        match error.kind() {
            ErrorKind::UnexpectedEof
            | ErrorKind::ConnectionReset
            | ErrorKind::ConnectionAborted
            | ErrorKind::BrokenPipe => Lost::Closed,
            ErrorKind::WouldBlock | ErrorKind::TimedOut => Lost::Late,
            _ => Lost::Failed,
        }
    }
}

/// Why a session at a live target goes no further.
#[derive(Drop, Error)]
pub enum LiveFault {
    /// Memory ran out.
    #[error("memory")]
    NoMemory,
    /// The connection is lost, with this number of bytes of the target read.
    #[error("{0} at {1}")]
    Lost(Lost, u64),
    /// The session failed in a piece that ends with this byte of the target.
    #[error("{0} (before byte {1} of the target)")]
    Session(InitiatorFault, u64),
    /// The initiator takes the request not now.
    #[error("request refused: {0}")]
    Refused(SubmitFault),
}

impl Debug for LiveFault {
    fn fmt<W: Write>(&self, f: &mut Formatter<W>) -> fmt::Result {
        write!(f, "LiveFault({self})")
    }
}

impl From<AllocError> for LiveFault {
    ghost from_gives = { λ _ e. e ≡ live.NoMemory };

    fn from(_e: AllocError) -> LiveFault {
        LiveFault::NoMemory
    }
}

/// Why a job is not done again to its end.
#[derive(Drop, Error)]
pub enum ReplayFault {
    /// Memory ran out.
    #[error("memory")]
    NoMemory,
    /// A line could not be written.
    #[error("write failed")]
    Write,
    /// The login failed.
    #[error("login: {0}")]
    Login(LiveFault),
    /// The session failed at the request with this number, from 1.
    #[error("request {0}: {1}")]
    Request(u64, LiveFault),
}

impl Debug for ReplayFault {
    fn fmt<W: Write>(&self, f: &mut Formatter<W>) -> fmt::Result {
        write!(f, "ReplayFault({self})")
    }
}

impl From<AllocError> for ReplayFault {
    ghost from_gives = { λ _ e. e ≡ replay.NoMemory };

    fn from(_e: AllocError) -> ReplayFault {
        ReplayFault::NoMemory
    }
}

impl ReplayFault {
    // The fault of a job whose login has this one.
    pub(crate) fn login(fault: LiveFault) -> ReplayFault {
        match fault {
            LiveFault::NoMemory => ReplayFault::NoMemory,
            fault => ReplayFault::Login(fault),
        }
    }

    /// The exit status: 3 for memory, 4 for writing and a lost connection, else 1.
    pub fn status(&self) -> u8 {
        match self {
            ReplayFault::NoMemory => 3,
            ReplayFault::Write => 4,
            ReplayFault::Login(fault) | ReplayFault::Request(_, fault) => fault.status(),
        }
    }
}

impl LiveFault {
    // The fault of a job at the request with this number.
    pub(crate) fn at(self, number: u64) -> ReplayFault {
        match self {
            LiveFault::NoMemory => ReplayFault::NoMemory,
            fault => ReplayFault::Request(number, fault),
        }
    }

    /// The exit status: 3 for memory, 4 for a lost connection, else 1.
    pub fn status(&self) -> u8 {
        match self {
            LiveFault::NoMemory | LiveFault::Session(InitiatorFault::NoMemory, _) => 3,
            LiveFault::Lost(_, _) => 4,
            LiveFault::Session(_, _) | LiveFault::Refused(_) => 1,
        }
    }
}
