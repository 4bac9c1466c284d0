//! The header of a Text Request (RFC 7143, section 11.10).

ghost use Rattle.std.specs.Prelude.{◌≡◌};
ghost use Rattle.scsi_cdb.specs.Layout.{RowsHold, AreFilled, HaveRoom, put_all};
ghost use Rattle.iscsi_pdu.specs.Fields.{text_request};

use crate::RESERVED_TAG;
use scsi_cdb::layout::{bit, put_bit, put_u32, put_u64_if, u32_at, u64_at};

/// A Text Request, opcode 04, with a text in its segment (RFC 7143, section 11.10).
#[derive(Clone, Copy, Debug, PartialEq, Eq)]
pub struct TextRequest {
    /// I: the command is for immediate delivery.
    pub immediate: bool,
    /// F: the initiator has no more to say.
    pub is_final: bool,
    /// C: the text goes on in the next Text Request.
    pub continues: bool,
    /// It is there where `target_transfer_tag` is not `RESERVED_TAG` (own rule).
    pub lun: Option<u64>,
    /// The initiator's tag of the task.
    pub initiator_task_tag: u32,
    /// That of the Text Response that is answered, or the reserved tag for a new negotiation.
    pub target_transfer_tag: u32,
    /// CmdSN of this PDU.
    pub cmd_sn: u32,
    /// ExpStatSN: the next StatSN that the initiator expects.
    pub exp_stat_sn: u32,
}

impl TextRequest {
    pub(crate) fn read(bytes: &[u8; 48]) -> TextRequest
        ensures { RowsHold bytes.now (text_request result) }
    {
        let target_transfer_tag = u32_at(bytes, 20);
        TextRequest {
            immediate: bit(bytes, 0, 0x40),
            is_final: bit(bytes, 1, 0x80),
            continues: bit(bytes, 1, 0x40),
            lun: (target_transfer_tag != RESERVED_TAG).then_some(u64_at(bytes, 8)),
            initiator_task_tag: u32_at(bytes, 16),
            target_transfer_tag,
            cmd_sn: u32_at(bytes, 24),
            exp_stat_sn: u32_at(bytes, 28),
        }
    }

    pub(crate) fn write(&self, out: &mut [u8; 48])
        requires { AreFilled (text_request self.now) }
        ensures written { out.new ≡ put_all (text_request self.now) out.old }
        ensures room { HaveRoom (text_request self.now) }
    {
        put_bit(out, 0, 0x40, self.immediate);
        put_bit(out, 1, 0x80, self.is_final);
        put_bit(out, 1, 0x40, self.continues);
        put_u64_if(out, 8, self.lun);
        put_u32(out, 16, self.initiator_task_tag);
        put_u32(out, 20, self.target_transfer_tag);
        put_u32(out, 24, self.cmd_sn);
        put_u32(out, 28, self.exp_stat_sn);
    }
}
