//! A request of a job, and what came of it.

ghost use Rattle.std.specs.Prelude.{◌≡◌, IfOk, IfSome};
ghost use Rattle.std.specs.Option.{option_map};
ghost use Rattle.iscsi_job.specs.Jobs.{DoneAs, lacks_data, moves_no_bytes, request_again};

use iscsi_initiator::{Done, Request};
use scsi_cdb::{Bytes, Residual};
use std::alloc::{AllocError, Global};
use std::marker::Model;

/// Which way a command's data go, by the bits R and W of its PDU (RFC 7143, section 11.3.1).
#[derive(Clone, Copy, PartialEq, Eq)]
pub enum Moves {
    /// No way: neither bit is set.
    Nothing,
    /// From the target: bit R is set, even if no byte is expected.
    In,
    /// To the target: bit W is set, even if no byte is expected.
    Out,
}

/// What was asked, but for the bytes that were sent with it.
#[derive(Clone, Copy, PartialEq, Eq)]
pub enum Asked {
    /// A SCSI command (RFC 7143, section 11.3).
    Command {
        /// The logical unit, as its 8 bytes.
        lun: u64,
        /// The descriptor block, with its free bits as 0.
        cdb: [u8; 16],
        /// Which way data go.
        moves: Moves,
        /// Expected Data Transfer Length, bytes; 0 where neither R nor W is set.
        expected: u32,
    },
    /// A NOP-Out that is answered (RFC 7143, section 11.18).
    Ping,
    /// A text request of one PDU (RFC 7143, section 11.10).
    Text,
    /// The end of the session or of its connection (RFC 7143, section 11.14).
    Logout,
    /// A task management function of this code (RFC 7143, section 11.5). It is not done again.
    Task(u8),
}

/// How a request ended, but for the bytes that came.
#[derive(Clone, Copy, PartialEq, Eq)]
pub enum Ended {
    /// A command was answered (RFC 7143, sections 11.4 and 11.7).
    Command {
        /// 0 where the target completed the command.
        response: u8,
        /// The SCSI status; 0 where the response has none.
        status: u8,
        /// How the bytes that the command has differ from those that were expected.
        residual: Residual,
    },
    /// A ping was answered.
    Ping,
    /// A text was answered.
    Text,
    /// The session was closed on request.
    Closed,
    /// A task management function was answered with this code.
    Task(u8),
}

/// What came of a request.
#[derive(Clone, Copy)]
pub struct Outcome<'a> {
    /// How it ended.
    pub ended: Ended,
    /// The sense data of a command, without their length.
    pub sense: &'a [u8],
    /// The data of a read, the data of a ping or the text that came.
    pub data: &'a [u8],
}

/// A request of a job, and what came of it.
#[derive(Drop)]
pub struct Item {
    /// What was asked.
    pub asked: Asked,
    /// The data of a write, the data of a ping or the text that was sent.
    pub sent: Vec<u8>,
    /// How it ended; none where it was not answered.
    pub ended: Option<Ended>,
    /// The sense data that came.
    pub sense: Vec<u8>,
    /// The data of a read, the data of a ping or the text that came.
    pub received: Vec<u8>,
}

impl Model for Item {
    ghost use Rattle.iscsi_job.specs.Jobs.{Item as JobItem};

    ghost Value = { JobItem };

    ghost view = { λ i. record {
      asked = i.asked;
      sent = i.sent.items;
      ended = i.ended;
      sense = i.sense.items;
      received = i.received.items;
    } };
}

impl Item {
    /// What came of it, if anything did.
    pub fn outcome(&self) -> Option<Outcome<'_>>
        ensures ended { option_map (λ outcome. outcome.ended) result ≡ self.now.ended }
        ensures sense { IfSome result (λ outcome. outcome.sense.now ≡ self.now.sense) }
        ensures data { IfSome result (λ outcome. outcome.«data».now ≡ self.now.received) }
    {
        let ended = self.ended?;
        Some(Outcome {
            ended,
            sense: &self.sense,
            data: &self.received,
        })
    }

    /// Whether it is a write of which fewer bytes were sent than it was to send. A target may end a write
    /// early, or the initiator may give it up.
    pub fn lacks_data(&self) -> bool
        ensures value { result ≡ lacks_data self.now }
    {
        match self.asked {
            Asked::Command {
                moves: Moves::Out,
                expected,
                ..
            } => self.sent.len() < expected as usize,
            _ => false,
        }
    }

    /// Whether it is a command that moves data, and expects none: bit R or W is set, and the length is 0.
    pub fn moves_no_bytes(&self) -> bool
        ensures value { result ≡ moves_no_bytes self.now.asked }
    {
        match self.asked {
            Asked::Command {
                moves: Moves::In | Moves::Out,
                expected,
                ..
            } => expected == 0,
            _ => false,
        }
    }

    /// The request that an initiator is asked for to do it again. There is none for task management, for
    /// a write that lacks data, and for a command that moves data and expects none: an initiator sets
    /// neither R nor W where there are no bytes.
    pub fn request(&self, alloc: Global) -> Result<Option<Request>, AllocError>
        ensures value { IfOk result (λ request. request ≡ request_again self.now) }
    {
        if self.lacks_data() || self.moves_no_bytes() {
            return Ok(None);
        }
        match self.asked {
            Asked::Command {
                lun,
                cdb,
                moves: Moves::Out,
                ..
            } => Ok(Some(Request::Out {
                lun,
                cdb,
                bytes: self.sent_again(alloc)?,
            })),
            Asked::Command {
                lun,
                cdb,
                expected,
                ..
            } => Ok(Some(Request::In { lun, cdb, expected })),
            Asked::Ping => Ok(Some(Request::Ping {
                bytes: self.sent_again(alloc)?,
            })),
            Asked::Text => Ok(Some(Request::Text {
                bytes: self.sent_again(alloc)?,
            })),
            Asked::Logout => Ok(Some(Request::Logout)),
            Asked::Task(_) => Ok(None),
        }
    }

    // A copy of the bytes that were sent.
    fn sent_again(&self, alloc: Global) -> Result<Bytes, AllocError>
        ensures { IfOk result (λ bytes. bytes ≡ self.now.sent) }
    {
        Ok(Bytes::from_vec(self.sent.to_vec(alloc)?))
    }
}

/// The outcome that an initiator gave for a request.
pub fn outcome_of(done: &Done) -> Outcome<'_>
    ensures is { DoneAs done.now result }
{
    match done {
        Done::Command {
            response,
            status,
            sense,
            bytes,
            residual,
        } => Outcome {
            ended: Ended::Command {
                response: *response,
                status: *status,
                residual: *residual,
            },
            sense: sense.as_slice(),
            data: bytes.as_slice(),
        },
        Done::Ping { bytes } => Outcome {
            ended: Ended::Ping,
            sense: &[],
            data: bytes.as_slice(),
        },
        Done::Text { bytes } => Outcome {
            ended: Ended::Text,
            sense: &[],
            data: bytes.as_slice(),
        },
        Done::Closed => Outcome {
            ended: Ended::Closed,
            sense: &[],
            data: &[],
        },
    }
}
