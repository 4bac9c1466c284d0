//! What an initiator may send in full feature phase, by its kind (RFC 7143, sections 4.2 and 11.1).

ghost use Rattle.std.specs.Prelude.{◌≡◌};
ghost use Rattle.iscsi_target_session.specs.Inbound.{inbound, ping_tag};

use iscsi_pdu::{
    DataOut, Head, LogoutRequest, NopOut, RESERVED_TAG, ScsiCommand, TaskRequest, TextRequest,
};

/// What an initiator may send in full feature phase (RFC 7143, section 11.2.1.2).
#[derive(Clone, Copy)]
pub enum Inbound {
    /// A request.
    Request(InboundRequest),
    /// A Data-Out. It has no CmdSN, and no place in the order of requests.
    Data(DataOut),
}

/// A request that came.
#[derive(Clone, Copy)]
pub struct InboundRequest {
    /// Its tag; a ping that wants no answer has none (RFC 7143, section 11.18).
    pub initiator_task_tag: Option<u32>,
    /// Whether it is immediate (RFC 7143, section 11.2.1.1).
    pub immediate: bool,
    /// Its CmdSN.
    pub cmd_sn: u32,
    /// What it asks for.
    pub asks: Asks,
}

/// What a request asks for.
#[derive(Clone, Copy)]
pub enum Asks {
    /// A command to the disk.
    Command(ScsiCommand),
    /// Something that the session answers by itself.
    Session(SessionRequest),
}

/// A request that is no command (RFC 7143, sections 11.5, 11.10, 11.14 and 11.18).
#[derive(Clone, Copy)]
pub enum SessionRequest {
    /// A ping.
    Ping(NopOut),
    /// Task management.
    Task(TaskRequest),
    /// A text.
    Text(TextRequest),
    /// The session is to end.
    Logout(LogoutRequest),
}

impl Inbound {
    /// What a PDU is to a target in full feature phase; none for a Login Request and for what only
    /// targets send (RFC 7143, section 11.2.1.2).
    pub fn of(head: &Head) -> Option<Inbound>
        ensures { result ≡ inbound head.now }
    {
        match head {
            Head::ScsiCommand(head) => Some(Inbound::Request(InboundRequest {
                initiator_task_tag: Some(head.initiator_task_tag),
                immediate: head.immediate,
                cmd_sn: head.cmd_sn,
                asks: Asks::Command(*head),
            })),
            Head::NopOut(head) => Some(Inbound::Request(InboundRequest {
                initiator_task_tag: ping_tag(head),
                immediate: head.immediate,
                cmd_sn: head.cmd_sn,
                asks: Asks::Session(SessionRequest::Ping(*head)),
            })),
            Head::TaskRequest(head) => Some(Inbound::Request(InboundRequest {
                initiator_task_tag: Some(head.initiator_task_tag),
                immediate: head.immediate,
                cmd_sn: head.cmd_sn,
                asks: Asks::Session(SessionRequest::Task(*head)),
            })),
            Head::TextRequest(head) => Some(Inbound::Request(InboundRequest {
                initiator_task_tag: Some(head.initiator_task_tag),
                immediate: head.immediate,
                cmd_sn: head.cmd_sn,
                asks: Asks::Session(SessionRequest::Text(*head)),
            })),
            Head::LogoutRequest(head) => Some(Inbound::Request(InboundRequest {
                initiator_task_tag: Some(head.initiator_task_tag),
                immediate: head.immediate,
                cmd_sn: head.cmd_sn,
                asks: Asks::Session(SessionRequest::Logout(*head)),
            })),
            Head::DataOut(head) => Some(Inbound::Data(*head)),
            _ => None,
        }
    }
}

// The tag of a ping; one that wants no answer has none.
fn ping_tag(request: &NopOut) -> Option<u32>
    ensures { result ≡ ping_tag request.now }
{
    if request.initiator_task_tag == RESERVED_TAG {
        None
    } else {
        Some(request.initiator_task_tag)
    }
}
