//! Requests, and what becomes of them.

use scsi_cdb::{Bytes, Residual};
use thiserror::Error;

/// What is requested of a target.
#[derive(Drop)]
pub enum Request {
    /// A command that may return data to the initiator (RFC 7143, section 11.3).
    In {
        /// The logical unit, as its 8 bytes.
        lun: u64,
        /// The command's descriptor block.
        cdb: [u8; 16],
        /// The most bytes that are taken, at most 4194304.
        expected: u32,
    },
    /// A command that may take data from the initiator (RFC 7143, section 11.3).
    Out {
        /// The logical unit, as its 8 bytes.
        lun: u64,
        /// The command's descriptor block.
        cdb: [u8; 16],
        /// The data, at most 4194304 bytes.
        bytes: Bytes,
    },
    /// A NOP-Out that is answered (RFC 7143, section 11.18).
    Ping {
        /// The ping data, at most as many bytes as the target takes in one segment.
        bytes: Bytes,
    },
    /// A text request (RFC 7143, section 11.10).
    Text {
        /// The text, at most as many bytes as the target takes in one segment.
        bytes: Bytes,
    },
    /// The end of the session (RFC 7143, section 11.14).
    Logout,
}

/// What came of a request.
#[derive(Drop)]
pub enum Done {
    /// A command was answered (RFC 7143, sections 11.4 and 11.7).
    Command {
        /// 0 where the target completed the command.
        response: u8,
        /// The SCSI status; 0 where the response has none.
        status: u8,
        /// The sense data, without their length.
        sense: Bytes,
        /// The data that came.
        bytes: Bytes,
        /// How the bytes that the command has differ from those that were expected.
        residual: Residual,
    },
    /// A ping was answered with these data.
    Ping {
        /// The ping data, which the target may have cut.
        bytes: Bytes,
    },
    /// A text request was answered with these bytes.
    Text {
        /// The text as it came.
        bytes: Bytes,
    },
    /// The session was closed on request.
    Closed,
}

/// Why a request is refused. The refusals come in this order.
#[derive(Clone, Copy, Debug, PartialEq, Eq, Error)]
pub enum SubmitFault {
    /// The session is closed.
    #[error("closed")]
    Closed,
    /// The session is not in full feature phase.
    #[error("not ready")]
    NotReady,
    /// A request is open, or its outcome was not taken.
    #[error("busy")]
    Busy,
    /// The target takes no further command now (RFC 7143, section 4.2.2.1).
    #[error("shut")]
    Shut,
    /// The request has or asks for more bytes than may go.
    #[error("too long")]
    TooLong,
    /// Memory ran out.
    #[error("memory")]
    NoMemory,
}

/// A request that is handed back as it was, and why.
#[derive(Drop)]
pub struct Refused {
    /// Why it is refused.
    pub fault: SubmitFault,
    /// The request.
    pub request: Request,
}
