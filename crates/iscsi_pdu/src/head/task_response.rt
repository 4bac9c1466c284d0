//! The header of a Task Management Function Response (RFC 7143, section 11.6).

ghost use Rattle.std.specs.Prelude.{◌≡◌};
ghost use Rattle.scsi_cdb.specs.Layout.{RowsHold, AreFilled, HaveRoom, put_all};
ghost use Rattle.iscsi_pdu.specs.Fields.{task_response};

use scsi_cdb::layout::{put_u8, put_u32, u8_at, u32_at};

/// A Task Management Function Response, opcode 22 (RFC 7143, section 11.6).
#[derive(Clone, Copy, Debug, PartialEq, Eq)]
pub struct TaskResponse {
    /// 0 where the function is complete.
    pub response: u8,
    /// The initiator's tag of the task.
    pub initiator_task_tag: u32,
    /// StatSN of this PDU.
    pub stat_sn: u32,
    /// ExpCmdSN: the next CmdSN that the target expects.
    pub exp_cmd_sn: u32,
    /// MaxCmdSN: the last CmdSN that the target takes.
    pub max_cmd_sn: u32,
}

impl TaskResponse {
    pub(crate) fn read(bytes: &[u8; 48]) -> TaskResponse
        ensures { RowsHold bytes.now (task_response result) }
    {
        TaskResponse {
            response: u8_at(bytes, 2),
            initiator_task_tag: u32_at(bytes, 16),
            stat_sn: u32_at(bytes, 24),
            exp_cmd_sn: u32_at(bytes, 28),
            max_cmd_sn: u32_at(bytes, 32),
        }
    }

    pub(crate) fn write(&self, out: &mut [u8; 48])
        requires { AreFilled (task_response self.now) }
        ensures written { out.new ≡ put_all (task_response self.now) out.old }
        ensures room { HaveRoom (task_response self.now) }
    {
        put_u8(out, 2, self.response);
        put_u32(out, 16, self.initiator_task_tag);
        put_u32(out, 24, self.stat_sn);
        put_u32(out, 28, self.exp_cmd_sn);
        put_u32(out, 32, self.max_cmd_sn);
    }
}
