//! The checks on a PDU before it is accepted.

use iscsi_pdu::DataOut;
use iscsi_target_session::InboundRequest;

/// What the checks on a PDU in full feature phase find (RFC 7143, section 4.2).
#[derive(Clone, Copy)]
pub enum Admission {
    /// A request outside the window, which is dropped.
    Outside,
    /// It broke this rule.
    Breaks(u8),
    /// An immediate request beside tasks.
    Beside(InboundRequest),
    /// A Data-Out.
    Data(DataOut),
    /// An immediate request where there is no task.
    AtOnce(InboundRequest),
    /// A request with the CmdSN that is due.
    InTurn(InboundRequest),
}
