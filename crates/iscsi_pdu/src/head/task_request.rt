//! The header of a Task Management Function Request (RFC 7143, section 11.5).

ghost use Rattle.std.specs.Prelude.{◌≡◌};
ghost use Rattle.scsi_cdb.specs.Layout.{RowsHold, AreFilled, HaveRoom, put_all};
ghost use Rattle.iscsi_pdu.specs.Fields.{task_request};

use scsi_cdb::layout::{bit, bits, put_bit, put_number, put_u32, put_u64, u32_at, u64_at};

/// A Task Management Function Request, opcode 02 (RFC 7143, section 11.5).
///
/// All its fields are kept whatever the function (own rule).
#[derive(Clone, Copy, Debug, PartialEq, Eq)]
pub struct TaskRequest {
    /// I: the command is for immediate delivery.
    pub immediate: bool,
    /// Which function, 0 to 127.
    pub function: u8,
    /// The logical unit.
    pub lun: u64,
    /// The initiator's tag of the task.
    pub initiator_task_tag: u32,
    /// The tag of the task that is meant.
    pub referenced_task_tag: u32,
    /// CmdSN of this PDU.
    pub cmd_sn: u32,
    /// ExpStatSN: the next StatSN that the initiator expects.
    pub exp_stat_sn: u32,
    /// RefCmdSN: the CmdSN of the task that is meant.
    pub ref_cmd_sn: u32,
    /// ExpDataSN, for a function that reassigns a task.
    pub exp_data_sn: u32,
}

impl TaskRequest {
    pub(crate) fn read(bytes: &[u8; 48]) -> TaskRequest
        ensures { RowsHold bytes.now (task_request result) }
    {
        TaskRequest {
            immediate: bit(bytes, 0, 0x40),
            function: bits(bytes, 1, 0x7f),
            lun: u64_at(bytes, 8),
            initiator_task_tag: u32_at(bytes, 16),
            referenced_task_tag: u32_at(bytes, 20),
            cmd_sn: u32_at(bytes, 24),
            exp_stat_sn: u32_at(bytes, 28),
            ref_cmd_sn: u32_at(bytes, 32),
            exp_data_sn: u32_at(bytes, 36),
        }
    }

    pub(crate) fn write(&self, out: &mut [u8; 48])
        requires { AreFilled (task_request self.now) }
        ensures written { out.new ≡ put_all (task_request self.now) out.old }
        ensures room { HaveRoom (task_request self.now) }
    {
        put_bit(out, 0, 0x40, self.immediate);
        put_number(out, 1, 0x7f, self.function);
        put_u64(out, 8, self.lun);
        put_u32(out, 16, self.initiator_task_tag);
        put_u32(out, 20, self.referenced_task_tag);
        put_u32(out, 24, self.cmd_sn);
        put_u32(out, 28, self.exp_stat_sn);
        put_u32(out, 32, self.ref_cmd_sn);
        put_u32(out, 36, self.exp_data_sn);
    }
}
