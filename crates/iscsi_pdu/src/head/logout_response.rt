//! The header of a Logout Response (RFC 7143, section 11.15).

ghost use Rattle.std.specs.Prelude.{◌≡◌};
ghost use Rattle.scsi_cdb.specs.Layout.{RowsHold, AreFilled, HaveRoom, put_all};
ghost use Rattle.iscsi_pdu.specs.Fields.{logout_response};

use scsi_cdb::layout::{put_u8, put_u16, put_u32, u8_at, u16_at, u32_at};

/// A Logout Response, opcode 26 (RFC 7143, section 11.15).
#[derive(Clone, Copy, Debug, PartialEq, Eq)]
pub struct LogoutResponse {
    /// 0 for success.
    pub response: u8,
    /// The initiator's tag of the task.
    pub initiator_task_tag: u32,
    /// StatSN of this PDU.
    pub stat_sn: u32,
    /// ExpCmdSN: the next CmdSN that the target expects.
    pub exp_cmd_sn: u32,
    /// MaxCmdSN: the last CmdSN that the target takes.
    pub max_cmd_sn: u32,
    /// Time2Wait, seconds before a task is taken up again.
    pub time2wait: u16,
    /// Time2Retain, seconds for which tasks are kept after that.
    pub time2retain: u16,
}

impl LogoutResponse {
    pub(crate) fn read(bytes: &[u8; 48]) -> LogoutResponse
        ensures { RowsHold bytes.now (logout_response result) }
    {
        LogoutResponse {
            response: u8_at(bytes, 2),
            initiator_task_tag: u32_at(bytes, 16),
            stat_sn: u32_at(bytes, 24),
            exp_cmd_sn: u32_at(bytes, 28),
            max_cmd_sn: u32_at(bytes, 32),
            time2wait: u16_at(bytes, 40),
            time2retain: u16_at(bytes, 42),
        }
    }

    pub(crate) fn write(&self, out: &mut [u8; 48])
        requires { AreFilled (logout_response self.now) }
        ensures written { out.new ≡ put_all (logout_response self.now) out.old }
        ensures room { HaveRoom (logout_response self.now) }
    {
        put_u8(out, 2, self.response);
        put_u32(out, 16, self.initiator_task_tag);
        put_u32(out, 24, self.stat_sn);
        put_u32(out, 28, self.exp_cmd_sn);
        put_u32(out, 32, self.max_cmd_sn);
        put_u16(out, 40, self.time2wait);
        put_u16(out, 42, self.time2retain);
    }
}
