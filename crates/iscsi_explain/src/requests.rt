//! The requests of a connection, by their tags.

use crate::stamp::{Origin, Stamp};
use iscsi_pdu::{Head, RESERVED_TAG};
use scsi_cdb::Cdb;
use std::alloc::Global;
use std::collections::HashMap;

/// How many requests are remembered, if none of them is answered.
const MOST_REQUESTS: usize = 65_536;

/// A SCSI command that a PDU belongs to.
#[derive(Clone, Copy)]
pub struct Asked {
    /// The logical unit, as the request has it.
    pub lun: u64,
    /// The command.
    pub cdb: Cdb,
}

// A request that has no response yet.
#[derive(Clone, Copy, Drop)]
struct Sent {
    // when it was sent
    at: u64,
    // the command, if it is one of SCSI
    asked: Option<Asked>,
}

/// The requests of a connection that have no response yet, by their tags.
#[derive(Drop)]
pub struct Requests {
    sent: HashMap<u32, Sent>,
}

impl Requests {
    /// No request. It takes no memory.
    pub fn new(alloc: Global) -> Requests {
        Requests {
            sent: HashMap::new(alloc),
        }
    }

    /// What a capture says of a PDU, with the command that it belongs to and, if it is a response,
    /// the time since its request. A request is remembered, unless memory runs out or there are
    /// 65,536 of them.
    pub fn stamped(&mut self, stamp: Option<Stamp>, head: &Head) -> Option<Stamp> {
        let stamp = stamp?;
        let (asked, since_request) = match stamp.origin {
            Origin::Initiator => (self.remembered(head, stamp.nanoseconds), None),
            Origin::Target => self.answered(head, stamp.nanoseconds),
        };
        Some(Stamp {
            asked,
            since_request,
            ..stamp
        })
    }

    // Notes a request. Gives the command that data of the initiator are for.
    fn remembered(&mut self, head: &Head, now: u64) -> Option<Asked> {
        if let Head::DataOut(h) = head {
            return self.command_of(h.initiator_task_tag);
        }
        let tag = request_tag(head)?;
        if self.sent.len() < MOST_REQUESTS {
            let sent = Sent {
                at: now,
                asked: asked_by(head),
            };
            let _ = self.sent.insert(tag, sent);
        }
        None
    }

    // The command that a PDU of the target is for, and how long ago it was sent if this is its
    // response. It is forgotten then.
    fn answered(&mut self, head: &Head, now: u64) -> (Option<Asked>, Option<u64>) {
        if let Some(tag) = data_tag(head) {
            return (self.command_of(tag), None);
        }
        match self.taken(head) {
            Some(sent) => (sent.asked, Some(now.saturating_sub(sent.at))),
            None => (None, None),
        }
    }

    // The command with this tag.
    fn command_of(&self, tag: u32) -> Option<Asked> {
        self.sent.get(&tag)?.asked
    }

    // The request of a response, which is forgotten.
    fn taken(&mut self, head: &Head) -> Option<Sent> {
        self.sent.remove(&response_tag(head)?)
    }
}

// The command that a request is.
fn asked_by(head: &Head) -> Option<Asked> {
    match head {
        Head::ScsiCommand(h) => Some(Asked {
            lun: h.lun,
            cdb: h.cdb,
        }),
        _ => None,
    }
}

// The tag of the command that a PDU of the target is for, if more of the target's follow.
fn data_tag(head: &Head) -> Option<u32> {
    match head {
        Head::DataIn(h) if !h.has_status => Some(h.initiator_task_tag),
        Head::ReadyToTransfer(h) => Some(h.initiator_task_tag),
        _ => None,
    }
}

// The tag of a request.
fn request_tag(head: &Head) -> Option<u32> {
    let tag = match head {
        Head::NopOut(h) => h.initiator_task_tag,
        Head::ScsiCommand(h) => h.initiator_task_tag,
        Head::TaskRequest(h) => h.initiator_task_tag,
        Head::LoginRequest(h) => h.initiator_task_tag,
        Head::TextRequest(h) => h.initiator_task_tag,
        Head::LogoutRequest(h) => h.initiator_task_tag,
        _ => return None,
    };
    if tag == RESERVED_TAG { None } else { Some(tag) }
}

// The tag of the request that a PDU completes.
fn response_tag(head: &Head) -> Option<u32> {
    let tag = match head {
        Head::NopIn(h) => h.initiator_task_tag,
        Head::ScsiResponse(h) => h.initiator_task_tag,
        Head::TaskResponse(h) => h.initiator_task_tag,
        Head::LoginResponse(h) => h.initiator_task_tag,
        Head::TextResponse(h) => h.initiator_task_tag,
        Head::LogoutResponse(h) => h.initiator_task_tag,
        Head::DataIn(h) if h.has_status => h.initiator_task_tag,
        _ => return None,
    };
    Some(tag)
}
