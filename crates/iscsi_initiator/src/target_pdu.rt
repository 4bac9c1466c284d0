//! What a target sends in full feature phase (RFC 7143, sections 4.2 and 11).

ghost use Rattle.std.specs.Prelude.{◌≡◌, IfSome};
ghost use Rattle.iscsi_pdu.specs.Meaning.{HeadFits};
ghost use Rattle.iscsi_pdu.specs.declared.head.Head.TheVariants as heads;
ghost use Rattle.iscsi_initiator.specs.TargetPdu.{counters, tagged, nop_in_pdu, target_pdu};
ghost use Rattle.iscsi_initiator.specs.inner.Inside.{FitsContent};

use iscsi_pdu::{DataIn, Head, NopIn, RESERVED_TAG, ReadyToTransfer, ScsiResponse, TextResponse};

/// The numbers of a PDU of the target (RFC 7143, section 4.2.2).
#[derive(Clone, Copy)]
pub(crate) struct Counters {
    /// StatSN, if it counts.
    pub(crate) stat_sn: Option<u32>,
    /// ExpCmdSN.
    pub(crate) exp_cmd_sn: u32,
    /// MaxCmdSN.
    pub(crate) max_cmd_sn: u32,
}

impl Counters {
    // These numbers.
    fn of(stat_sn: Option<u32>, exp_cmd_sn: u32, max_cmd_sn: u32) -> Counters
        ensures { result ≡ counters stat_sn exp_cmd_sn max_cmd_sn }
    {
        Counters {
            stat_sn,
            exp_cmd_sn,
            max_cmd_sn,
        }
    }
}

/// What answers a request, by its kind.
#[derive(Clone, Copy)]
pub(crate) enum Answer {
    /// The NOP-In that answers a ping.
    Ping,
    /// Data-In.
    Data(DataIn),
    /// A SCSI Response.
    Response(ScsiResponse),
    /// An R2T.
    R2t(ReadyToTransfer),
    /// A Text Response.
    Text(TextResponse),
    /// A Logout Response.
    Logout,
}

/// What a target may send.
#[derive(Clone, Copy)]
pub(crate) enum Content {
    /// A NOP-In that answers no ping.
    UnsolicitedNopIn(NopIn),
    /// An Asynchronous Message.
    Async,
    /// A Reject.
    Reject,
    /// An answer to the request with this task tag.
    Tagged(u32, Answer),
}

/// A PDU that a target may send.
#[derive(Clone, Copy)]
pub(crate) struct TargetPdu {
    /// What it says.
    pub(crate) content: Content,
    /// Its numbers.
    pub(crate) counters: Counters,
}

impl TargetPdu {
    /// What a head says in full feature phase; `None` if its kind has no place there.
    pub(crate) fn of(head: &Head) -> Option<TargetPdu>
        requires fits { HeadFits head.now }
        ensures value { result ≡ target_pdu head.now }
        ensures fits { IfSome result (λ pdu. FitsContent pdu.content) }
    {
        Some(match head {
            Head::NopIn(h) => nop_in(h),
            Head::AsyncMessage(h) => TargetPdu {
                content: Content::Async,
                counters: Counters::of(Some(h.stat_sn), h.exp_cmd_sn, h.max_cmd_sn),
            },
            Head::Reject(h) => TargetPdu {
                content: Content::Reject,
                counters: Counters::of(Some(h.stat_sn), h.exp_cmd_sn, h.max_cmd_sn),
            },
            Head::DataIn(h) => tagged(
                h.initiator_task_tag,
                Answer::Data(*h),
                Counters::of(h.stat_sn, h.exp_cmd_sn, h.max_cmd_sn),
            ),
            Head::ScsiResponse(h) => tagged(
                h.initiator_task_tag,
                Answer::Response(*h),
                Counters::of(Some(h.stat_sn), h.exp_cmd_sn, h.max_cmd_sn),
            ),
            Head::ReadyToTransfer(h) => tagged(
                h.initiator_task_tag,
                Answer::R2t(*h),
                Counters::of(None, h.exp_cmd_sn, h.max_cmd_sn),
            ),
            Head::TextResponse(h) => tagged(
                h.initiator_task_tag,
                Answer::Text(*h),
                Counters::of(Some(h.stat_sn), h.exp_cmd_sn, h.max_cmd_sn),
            ),
            Head::LogoutResponse(h) => tagged(
                h.initiator_task_tag,
                Answer::Logout,
                Counters::of(Some(h.stat_sn), h.exp_cmd_sn, h.max_cmd_sn),
            ),
            _ => return None,
        })
    }
}

// A NOP-In with the reserved task tag answers no ping, and its StatSN doesn't count.
fn nop_in(h: &NopIn) -> TargetPdu
    requires fits { HeadFits (heads.NopIn h.now) }
    ensures value { result ≡ nop_in_pdu h.now }
    ensures fits { FitsContent result.content }
{
    if h.initiator_task_tag == RESERVED_TAG {
        return TargetPdu {
            content: Content::UnsolicitedNopIn(*h),
            counters: Counters::of(None, h.exp_cmd_sn, h.max_cmd_sn),
        };
    }
    tagged(
        h.initiator_task_tag,
        Answer::Ping,
        Counters::of(Some(h.stat_sn), h.exp_cmd_sn, h.max_cmd_sn),
    )
}

// An answer to the request with this task tag.
fn tagged(tag: u32, answer: Answer, counters: Counters) -> TargetPdu
    ensures { result ≡ tagged tag answer counters }
{
    TargetPdu {
        content: Content::Tagged(tag, answer),
        counters,
    }
}
