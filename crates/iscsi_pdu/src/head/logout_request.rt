//! The header of a Logout Request (RFC 7143, section 11.14).

ghost use Rattle.std.specs.Prelude.{◌≡◌};
ghost use Rattle.scsi_cdb.specs.Layout.{RowsHold, AreFilled, HaveRoom, put_all};
ghost use Rattle.iscsi_pdu.specs.Fields.{logout_request};

use scsi_cdb::layout::{bit, bits, put_bit, put_number, put_u16_if, put_u32, u16_at, u32_at};

/// A Logout Request, opcode 06 (RFC 7143, section 11.14).
#[derive(Clone, Copy, Debug, PartialEq, Eq)]
pub struct LogoutRequest {
    /// I: the command is for immediate delivery.
    pub immediate: bool,
    /// Reason Code, 0 to 127: 0 closes the session, 1 the connection, 2 removes it for recovery.
    pub reason: u8,
    /// The initiator's tag of the task.
    pub initiator_task_tag: u32,
    /// CID: which connection. It is there where `reason` is not 0.
    pub connection_id: Option<u16>,
    /// CmdSN of this PDU.
    pub cmd_sn: u32,
    /// ExpStatSN: the next StatSN that the initiator expects.
    pub exp_stat_sn: u32,
}

impl LogoutRequest {
    pub(crate) fn read(bytes: &[u8; 48]) -> LogoutRequest
        ensures { RowsHold bytes.now (logout_request result) }
    {
        let reason = bits(bytes, 1, 0x7f);
        LogoutRequest {
            immediate: bit(bytes, 0, 0x40),
            reason,
            initiator_task_tag: u32_at(bytes, 16),
            connection_id: (reason != 0).then_some(u16_at(bytes, 20)),
            cmd_sn: u32_at(bytes, 24),
            exp_stat_sn: u32_at(bytes, 28),
        }
    }

    pub(crate) fn write(&self, out: &mut [u8; 48])
        requires { AreFilled (logout_request self.now) }
        ensures written { out.new ≡ put_all (logout_request self.now) out.old }
        ensures room { HaveRoom (logout_request self.now) }
    {
        put_bit(out, 0, 0x40, self.immediate);
        put_number(out, 1, 0x7f, self.reason);
        put_u32(out, 16, self.initiator_task_tag);
        put_u16_if(out, 20, self.connection_id);
        put_u32(out, 24, self.cmd_sn);
        put_u32(out, 28, self.exp_stat_sn);
    }
}
