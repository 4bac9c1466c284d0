//! Why a connection is lost, and why a medium has ended for good.

use nbd_wire::ReplyMagic;
use std::io::{self, ErrorKind};
use thiserror::Error;

/// The connection is lost. What was asked last may have been done, or be done later; nothing more
/// can be asked.
#[derive(Clone, Copy, Debug, PartialEq, Eq, Error)]
pub enum Lost {
    /// The server closed it.
    #[error("connection lost: the server closed it")]
    Closed,
    /// The server neither took nor sent a byte for as long as one waits for it.
    #[error("connection lost: the server does not answer")]
    Late,
    /// It failed otherwise.
    #[error("connection lost")]
    Failed,
}

impl From<io::Error> for Lost {
    fn from(error: io::Error) -> Lost {
        match error.kind() {
            ErrorKind::UnexpectedEof
            | ErrorKind::ConnectionReset
            | ErrorKind::ConnectionAborted
            | ErrorKind::BrokenPipe => Lost::Closed,
            ErrorKind::WouldBlock | ErrorKind::TimedOut => Lost::Late,
            _ => Lost::Failed,
        }
    }
}

/// Why a medium has ended: nothing more is asked of the server.
#[derive(Clone, Copy, Debug, PartialEq, Eq, Error)]
pub enum MediumFault {
    /// The connection is lost.
    #[error("{0}")]
    Lost(Lost),
    /// The server sent something else than a simple reply.
    #[error("protocol: {0}")]
    Reply(ReplyMagic),
    /// The server sent a reply with another cookie than that of the request.
    #[error("protocol: reply to another request")]
    Cookie,
    /// The server refused a FLUSH with this error, so that what was written may be lost with no
    /// further error.
    #[error("sync failed: error {0}")]
    NotSynced(u32),
}

/// Who is told why a medium has ended.
pub trait Report {
    /// Tells it. A medium does so once, at the call that ends it.
    fn report(&mut self, fault: MediumFault);
}

/// Tells nobody.
#[derive(Clone, Copy, Debug, PartialEq, Eq)]
pub struct Silent;

impl Report for Silent {
    fn report(&mut self, _fault: MediumFault) {}
}
