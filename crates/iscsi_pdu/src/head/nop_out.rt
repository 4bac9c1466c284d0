//! The header of a NOP-Out (RFC 7143, section 11.18).

ghost use Rattle.std.specs.Prelude.{◌≡◌};
ghost use Rattle.scsi_cdb.specs.Layout.{RowsHold, AreFilled, HaveRoom, put_all};
ghost use Rattle.iscsi_pdu.specs.Fields.{nop_out};

use crate::RESERVED_TAG;
use scsi_cdb::layout::{bit, put_bit, put_u32, put_u64_if, u32_at, u64_at};

/// A NOP-Out, opcode 00: a ping, or the answer to a NOP-In (RFC 7143, section 11.18).
#[derive(Clone, Copy, Debug, PartialEq, Eq)]
pub struct NopOut {
    /// I: the command is for immediate delivery.
    pub immediate: bool,
    /// It is there where `target_transfer_tag` is not `RESERVED_TAG`.
    pub lun: Option<u64>,
    /// The reserved tag where no answer is asked for.
    pub initiator_task_tag: u32,
    /// That of the NOP-In that is answered, or the reserved tag.
    pub target_transfer_tag: u32,
    /// CmdSN of this PDU.
    pub cmd_sn: u32,
    /// ExpStatSN: the next StatSN that the initiator expects.
    pub exp_stat_sn: u32,
}

impl NopOut {
    pub(crate) fn read(bytes: &[u8; 48]) -> NopOut
        ensures { RowsHold bytes.now (nop_out result) }
    {
        let target_transfer_tag = u32_at(bytes, 20);
        NopOut {
            immediate: bit(bytes, 0, 0x40),
            lun: (target_transfer_tag != RESERVED_TAG).then_some(u64_at(bytes, 8)),
            initiator_task_tag: u32_at(bytes, 16),
            target_transfer_tag,
            cmd_sn: u32_at(bytes, 24),
            exp_stat_sn: u32_at(bytes, 28),
        }
    }

    pub(crate) fn write(&self, out: &mut [u8; 48])
        requires { AreFilled (nop_out self.now) }
        ensures written { out.new ≡ put_all (nop_out self.now) out.old }
        ensures room { HaveRoom (nop_out self.now) }
    {
        put_bit(out, 0, 0x40, self.immediate);
        put_u64_if(out, 8, self.lun);
        put_u32(out, 16, self.initiator_task_tag);
        put_u32(out, 20, self.target_transfer_tag);
        put_u32(out, 24, self.cmd_sn);
        put_u32(out, 28, self.exp_stat_sn);
    }
}
