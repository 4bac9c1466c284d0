//! The header of a Ready To Transfer (R2T) (RFC 7143, section 11.8).

ghost use Rattle.std.specs.Prelude.{◌≡◌};
ghost use Rattle.scsi_cdb.specs.Layout.{RowsHold, AreFilled, HaveRoom, put_all};
ghost use Rattle.iscsi_pdu.specs.Fields.{ready_to_transfer};

use scsi_cdb::layout::{put_u32, put_u64, u32_at, u64_at};

/// A Ready To Transfer (R2T), opcode 31: the target asks for data of a write (RFC 7143, section
/// 11.8).
#[derive(Clone, Copy, Debug, PartialEq, Eq)]
pub struct ReadyToTransfer {
    /// The logical unit.
    pub lun: u64,
    /// The initiator's tag of the task.
    pub initiator_task_tag: u32,
    /// The target's tag of the transfer.
    pub target_transfer_tag: u32,
    /// The next StatSN: an R2T does not count.
    pub stat_sn: u32,
    /// ExpCmdSN: the next CmdSN that the target expects.
    pub exp_cmd_sn: u32,
    /// MaxCmdSN: the last CmdSN that the target takes.
    pub max_cmd_sn: u32,
    /// R2TSN: the number of this R2T in its command, from 0.
    pub r2t_sn: u32,
    /// The first byte that is asked for, counted from the start of the command's data.
    pub buffer_offset: u32,
    /// How many bytes are asked for.
    pub desired_data_transfer_length: u32,
}

impl ReadyToTransfer {
    pub(crate) fn read(bytes: &[u8; 48]) -> ReadyToTransfer
        ensures { RowsHold bytes.now (ready_to_transfer result) }
    {
        ReadyToTransfer {
            lun: u64_at(bytes, 8),
            initiator_task_tag: u32_at(bytes, 16),
            target_transfer_tag: u32_at(bytes, 20),
            stat_sn: u32_at(bytes, 24),
            exp_cmd_sn: u32_at(bytes, 28),
            max_cmd_sn: u32_at(bytes, 32),
            r2t_sn: u32_at(bytes, 36),
            buffer_offset: u32_at(bytes, 40),
            desired_data_transfer_length: u32_at(bytes, 44),
        }
    }

    pub(crate) fn write(&self, out: &mut [u8; 48])
        requires { AreFilled (ready_to_transfer self.now) }
        ensures written { out.new ≡ put_all (ready_to_transfer self.now) out.old }
        ensures room { HaveRoom (ready_to_transfer self.now) }
    {
        put_u64(out, 8, self.lun);
        put_u32(out, 16, self.initiator_task_tag);
        put_u32(out, 20, self.target_transfer_tag);
        put_u32(out, 24, self.stat_sn);
        put_u32(out, 28, self.exp_cmd_sn);
        put_u32(out, 32, self.max_cmd_sn);
        put_u32(out, 36, self.r2t_sn);
        put_u32(out, 40, self.buffer_offset);
        put_u32(out, 44, self.desired_data_transfer_length);
    }
}
