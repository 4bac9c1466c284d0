//! The header of a Text Response (RFC 7143, section 11.11).

ghost use Rattle.std.specs.Prelude.{◌≡◌};
ghost use Rattle.scsi_cdb.specs.Layout.{RowsHold, AreFilled, HaveRoom, put_all};
ghost use Rattle.iscsi_pdu.specs.Fields.{text_response};

use crate::RESERVED_TAG;
use scsi_cdb::layout::{bit, put_bit, put_u32, put_u64_if, u32_at, u64_at};

/// A Text Response, opcode 24, with a text in its segment (RFC 7143, section 11.11).
#[derive(Clone, Copy, Debug, PartialEq, Eq)]
pub struct TextResponse {
    /// F: the target has no more to say.
    pub is_final: bool,
    /// C: the text goes on in the next Text Response.
    pub continues: bool,
    /// It is there where `target_transfer_tag` is not `RESERVED_TAG` (own rule).
    pub lun: Option<u64>,
    /// The initiator's tag of the task.
    pub initiator_task_tag: u32,
    /// The reserved tag where the negotiation ends.
    pub target_transfer_tag: u32,
    /// StatSN of this PDU.
    pub stat_sn: u32,
    /// ExpCmdSN: the next CmdSN that the target expects.
    pub exp_cmd_sn: u32,
    /// MaxCmdSN: the last CmdSN that the target takes.
    pub max_cmd_sn: u32,
}

impl TextResponse {
    pub(crate) fn read(bytes: &[u8; 48]) -> TextResponse
        ensures { RowsHold bytes.now (text_response result) }
    {
        let target_transfer_tag = u32_at(bytes, 20);
        TextResponse {
            is_final: bit(bytes, 1, 0x80),
            continues: bit(bytes, 1, 0x40),
            lun: (target_transfer_tag != RESERVED_TAG).then_some(u64_at(bytes, 8)),
            initiator_task_tag: u32_at(bytes, 16),
            target_transfer_tag,
            stat_sn: u32_at(bytes, 24),
            exp_cmd_sn: u32_at(bytes, 28),
            max_cmd_sn: u32_at(bytes, 32),
        }
    }

    pub(crate) fn write(&self, out: &mut [u8; 48])
        requires { AreFilled (text_response self.now) }
        ensures written { out.new ≡ put_all (text_response self.now) out.old }
        ensures room { HaveRoom (text_response self.now) }
    {
        put_bit(out, 1, 0x80, self.is_final);
        put_bit(out, 1, 0x40, self.continues);
        put_u64_if(out, 8, self.lun);
        put_u32(out, 16, self.initiator_task_tag);
        put_u32(out, 20, self.target_transfer_tag);
        put_u32(out, 24, self.stat_sn);
        put_u32(out, 28, self.exp_cmd_sn);
        put_u32(out, 32, self.max_cmd_sn);
    }
}
