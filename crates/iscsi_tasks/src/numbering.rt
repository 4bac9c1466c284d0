//! What the PDUs of a target count, and which tags they answer.

ghost use Rattle.std.specs.Prelude.{◌≡◌};
ghost use Rattle.iscsi_tasks.specs.Numbering.{answered_tag, counted, acknowledged, next_after, serial_of, stands_at};

use iscsi_pdu::{Head, RESERVED_TAG, Serial};

/// The StatSN of a PDU of the target behind which the number is counted on: that of each answer with a
/// status, of an asynchronous message and of a rejection. An R2T, a ping of the target and a Data-In
/// without status have none (RFC 7143, sections 11.7.2, 11.8 and 11.19).
pub fn counted(head: &Head) -> Option<Serial>
    ensures value { result ≡ counted head.now }
{
    match head {
        Head::ScsiResponse(head) => Some(Serial(head.stat_sn)),
        Head::TaskResponse(head) => Some(Serial(head.stat_sn)),
        Head::LoginResponse(head) => serial_of(head.stat_sn),
        Head::TextResponse(head) => Some(Serial(head.stat_sn)),
        Head::LogoutResponse(head) => Some(Serial(head.stat_sn)),
        Head::AsyncMessage(head) => Some(Serial(head.stat_sn)),
        Head::Reject(head) => Some(Serial(head.stat_sn)),
        Head::DataIn(head) => serial_of(head.stat_sn),
        Head::NopIn(head) => {
            if head.initiator_task_tag == RESERVED_TAG {
                None
            } else {
                Some(Serial(head.stat_sn))
            }
        }
        _ => None,
    }
}

// The serial number that a number is, if there is one.
fn serial_of(number: Option<u32>) -> Option<Serial>
    ensures value { result ≡ serial_of number }
{
    match number {
        Some(number) => Some(Serial(number)),
        None => None,
    }
}

/// ExpStatSN of a PDU of the initiator: it had received each answer before this number when it sent the
/// PDU (RFC 7143, section 11.3.5). None of a PDU of the target.
pub fn acknowledged(head: &Head) -> Option<Serial>
    ensures value { result ≡ acknowledged head.now }
{
    match head {
        Head::ScsiCommand(head) => Some(Serial(head.exp_stat_sn)),
        Head::DataOut(head) => Some(Serial(head.exp_stat_sn)),
        Head::NopOut(head) => Some(Serial(head.exp_stat_sn)),
        Head::TextRequest(head) => Some(Serial(head.exp_stat_sn)),
        Head::LogoutRequest(head) => Some(Serial(head.exp_stat_sn)),
        Head::TaskRequest(head) => Some(Serial(head.exp_stat_sn)),
        Head::LoginRequest(head) => Some(Serial(head.exp_stat_sn)),
        _ => None,
    }
}

/// The initiator task tag that a PDU of the target answers, or sends or asks data for; none of a PDU
/// that belongs to no request. A login has no use of its tag here.
pub fn answered_tag(head: &Head) -> Option<u32>
    ensures value { result ≡ answered_tag head.now }
{
    match head {
        Head::ScsiResponse(head) => Some(head.initiator_task_tag),
        Head::TaskResponse(head) => Some(head.initiator_task_tag),
        Head::TextResponse(head) => Some(head.initiator_task_tag),
        Head::LogoutResponse(head) => Some(head.initiator_task_tag),
        Head::DataIn(head) => Some(head.initiator_task_tag),
        Head::ReadyToTransfer(head) => Some(head.initiator_task_tag),
        Head::NopIn(head) => {
            if head.initiator_task_tag == RESERVED_TAG {
                None
            } else {
                Some(head.initiator_task_tag)
            }
        }
        _ => None,
    }
}

/// The StatSN at which a PDU stands: its own, or else the next one, as far as that is known.
pub(crate) fn stands_at(next: Option<Serial>, head: &Head) -> Option<Serial>
    ensures value { result ≡ stands_at next head.now }
{
    match counted(head) {
        Some(number) => Some(number),
        None => next,
    }
}

/// The next StatSN behind a PDU.
pub(crate) fn next_after(next: Option<Serial>, head: &Head) -> Option<Serial>
    ensures value { result ≡ next_after next head.now }
{
    match counted(head) {
        Some(number) => Some(number.next()),
        None => next,
    }
}
