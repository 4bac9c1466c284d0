//! SCSI Responses: their head, and the bytes with the sense data (RFC 7143, section 11.4).

ghost use Rattle.std.specs.Prelude.{◌≡◌, ◌≤◌, ◌+◌, ◌++◌, ℕ, OnOk, OnErr, IsOk, vec_len, vec_capacity, Some};
ghost use Rattle.iscsi_pdu.specs.Meaning.{HeadFits, whole};
ghost use Rattle.iscsi_target_session.specs.Session.{Session, max_cmd_sn_with};
ghost use Rattle.iscsi_target.specs.Execution.{response_head, residual_count, sense_segment};

use iscsi_pdu::{Head, ScsiResponse};
use iscsi_stream::write_pdu;
use iscsi_target_session::Numbers;
use scsi_cdb::{Residual, Sense};
use scsi_disk::Outcome;
use std::alloc::AllocError;

/// The head of the response to a command whose data were sent in `n` PDUs.
pub fn response_head(numbers: Numbers, tag: u32, outcome: &Outcome, count: u32) -> Head
    ensures head { (s : Session) (waiting : ℕ) → s.stat_sn ≡ numbers.stat_sn
        → s.exp_cmd_sn ≡ numbers.exp_cmd_sn → max_cmd_sn_with s waiting ≡ numbers.max_cmd_sn
        → result ≡ response_head s waiting tag outcome.now count }
    ensures fits { HeadFits result }
{
    Head::ScsiResponse(ScsiResponse {
        bidirectional_overflow: false,
        bidirectional_underflow: false,
        overflow: matches!(outcome.residual, Residual::Over(_)),
        underflow: matches!(outcome.residual, Residual::Under(_)),
        response: 0,
        status: Some(outcome.status),
        initiator_task_tag: tag,
        stat_sn: numbers.stat_sn,
        exp_cmd_sn: numbers.exp_cmd_sn,
        max_cmd_sn: numbers.max_cmd_sn,
        exp_data_sn: Some(count),
        bidirectional_residual: None,
        residual: residual_count(outcome.residual),
    })
}

fn residual_count(residual: Residual) -> Option<u32>
    ensures { result ≡ residual_count residual }
{
    match residual {
        Residual::Exact => None,
        Residual::Under(n) | Residual::Over(n) => Some(n),
    }
}

/// Appends a response with its sense data, or leaves all as it was. Where there is room it is
/// appended.
pub fn append_response(
    head: &Head,
    sense: Option<Sense>,
    out: &mut Vec<u8>,
) -> Result<(), AllocError>
    requires { HeadFits head.now }
    ensures ok { OnOk result
        (out.new.items ≡ out.old.items ++ whole head.now (sense_segment sense)) }
    ensures err { OnErr result (out.new.items ≡ out.old.items) }
    ensures room { vec_len out.old + 71 ≤ vec_capacity out.old → IsOk result }
{
    match sense {
        None => write_pdu(head, &[], out),
        Some(sense) => write_pdu(head, &segment_of(sense), out),
    }
}

// The length of the sense data, and the data.
fn segment_of(sense: Sense) -> [u8; 20]
    ensures { result ≡ sense_segment (Some sense) }
{
    let mut segment = [0; 20];
    segment[1] = 0x12;
    segment[2..].copy_from_slice(&sense.bytes());
    segment
}
