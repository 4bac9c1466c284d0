//! Why the job of a recording is not found, or not all of it.

ghost use Rattle.std.specs.Prelude.{◌≡◌};
ghost use Rattle.iscsi_job.specs.declared.fault.JobFault.TheVariants.{NoMemory};

use iscsi_stream::StreamFault;
use std::alloc::{AllocError, AllocFailed};
use std::fmt::{self, Debug, Display, Formatter, Write};
use thiserror::Error;

/// The end that sent a stream.
#[derive(Clone, Copy, PartialEq, Eq)]
pub enum Which {
    /// Who logs in.
    Initiator,
    /// Who is logged in to.
    Target,
}

impl Display for Which {
    fn fmt<W: Write>(&self, f: &mut Formatter<W>) -> fmt::Result {
        match self {
            Which::Initiator => f.write_str("initiator"),
            Which::Target => f.write_str("target"),
        }
    }
}

/// Why a PDU of a recording has no place in a job (own rules, but for the first four).
#[derive(Clone, Copy, PartialEq, Eq)]
pub enum Reason {
    /// The first PDU is of no login, so the recording begins late.
    Late,
    /// The end does not send PDUs of this kind.
    Kind,
    /// Data stand at another offset than the next one, or are more than was expected, or a command
    /// that sends none has some.
    Order,
    /// The sense data are cut off.
    Sense,
    /// Data of both directions belong to one command.
    Bidirectional,
    /// A text goes on in a further PDU.
    Parts,
    /// No open request is answered by it, or it is of a kind that is not answered so.
    Unasked,
    /// The target rejects a PDU.
    Rejected,
}

impl Display for Reason {
    fn fmt<W: Write>(&self, f: &mut Formatter<W>) -> fmt::Result {
        let text = match self {
            Reason::Late => "no login stands first",
            Reason::Kind => "kind of the other end",
            Reason::Order => "data out of order",
            Reason::Sense => "sense cut off",
            Reason::Bidirectional => "both directions",
            Reason::Parts => "text in parts",
            Reason::Unasked => "no such request",
            Reason::Rejected => "rejected",
        };
        f.write_str(text)
    }
}

/// Why the job of a recording is not found, or not all of it. A place is the number of stream bytes
/// before a PDU, and PDUs count from 1.
#[derive(Clone, Copy, Error)]
pub enum JobFault {
    /// Memory ran out.
    #[error("memory")]
    NoMemory,
    /// A read failed, or 16,777,216 of them did not reach the next PDU.
    #[error("{0}: read failed")]
    Read(Which),
    /// The stream leaves the profile; the fault is never `NoMemory`.
    #[error("{0}: {1}")]
    Stream(Which, StreamFault),
    /// The PDU at this place has no place in a job.
    #[error("{which}: {reason} at {place} (PDU {pdu})")]
    Refused {
        /// Whose stream it is.
        which: Which,
        /// Why it has none.
        reason: Reason,
        /// The number of stream bytes before it.
        place: u64,
        /// Its number.
        pdu: u64,
    },
}

impl Debug for JobFault {
    fn fmt<W: Write>(&self, f: &mut Formatter<W>) -> fmt::Result {
        write!(f, "JobFault({self})")
    }
}

impl JobFault {
    // The fault that a stream's is.
    pub(crate) fn of_stream(which: Which, fault: StreamFault) -> JobFault {
        match fault {
            StreamFault::NoMemory => JobFault::NoMemory,
            _ => JobFault::Stream(which, fault),
        }
    }
}

impl From<AllocError> for JobFault {
    ghost from_gives = { λ _ e. e ≡ NoMemory };

    fn from(_e: AllocError) -> JobFault {
        JobFault::NoMemory
    }
}

impl<T: Drop> From<AllocFailed<T>> for JobFault {
    ghost from_gives = { λ _ e. e ≡ NoMemory };

    fn from(_e: AllocFailed<T>) -> JobFault {
        JobFault::NoMemory
    }
}
