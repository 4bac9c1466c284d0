//! The header of a NOP-In (RFC 7143, section 11.19).

ghost use Rattle.std.specs.Prelude.{◌≡◌};
ghost use Rattle.scsi_cdb.specs.Layout.{RowsHold, AreFilled, HaveRoom, put_all};
ghost use Rattle.iscsi_pdu.specs.Fields.{nop_in};

use crate::RESERVED_TAG;
use scsi_cdb::layout::{put_u32, put_u64_if, u32_at, u64_at};

/// A NOP-In, opcode 20: the answer to a ping, or the target's own (RFC 7143, section 11.19).
#[derive(Clone, Copy, Debug, PartialEq, Eq)]
pub struct NopIn {
    /// It is there where `target_transfer_tag` is not `RESERVED_TAG`.
    pub lun: Option<u64>,
    /// That of the NOP-Out that is answered, or the reserved tag.
    pub initiator_task_tag: u32,
    /// The reserved tag where no answer is asked for.
    pub target_transfer_tag: u32,
    /// StatSN of this PDU.
    pub stat_sn: u32,
    /// ExpCmdSN: the next CmdSN that the target expects.
    pub exp_cmd_sn: u32,
    /// MaxCmdSN: the last CmdSN that the target takes.
    pub max_cmd_sn: u32,
}

impl NopIn {
    pub(crate) fn read(bytes: &[u8; 48]) -> NopIn
        ensures { RowsHold bytes.now (nop_in result) }
    {
        let target_transfer_tag = u32_at(bytes, 20);
        NopIn {
            lun: (target_transfer_tag != RESERVED_TAG).then_some(u64_at(bytes, 8)),
            initiator_task_tag: u32_at(bytes, 16),
            target_transfer_tag,
            stat_sn: u32_at(bytes, 24),
            exp_cmd_sn: u32_at(bytes, 28),
            max_cmd_sn: u32_at(bytes, 32),
        }
    }

    pub(crate) fn write(&self, out: &mut [u8; 48])
        requires { AreFilled (nop_in self.now) }
        ensures written { out.new ≡ put_all (nop_in self.now) out.old }
        ensures room { HaveRoom (nop_in self.now) }
    {
        put_u64_if(out, 8, self.lun);
        put_u32(out, 16, self.initiator_task_tag);
        put_u32(out, 20, self.target_transfer_tag);
        put_u32(out, 24, self.stat_sn);
        put_u32(out, 28, self.exp_cmd_sn);
        put_u32(out, 32, self.max_cmd_sn);
    }
}
