//! The header of a SCSI Response (RFC 7143, section 11.4).

ghost use Rattle.std.specs.Prelude.{◌≡◌};
ghost use Rattle.scsi_cdb.specs.Layout.{RowsHold, AreFilled, HaveRoom, put_all};
ghost use Rattle.iscsi_pdu.specs.Fields.{scsi_response};

use scsi_cdb::layout::{bit, put_bit, put_u8, put_u8_if, put_u32, put_u32_if, u8_at, u32_at};

/// A SCSI Response, opcode 21, with sense data in its segment (RFC 7143, section 11.4).
///
/// Its SNACK tag has no meaning at error recovery level 0 (own rule).
#[derive(Clone, Copy, Debug, PartialEq, Eq)]
pub struct ScsiResponse {
    /// o: the read part had more bytes than were expected.
    pub bidirectional_overflow: bool,
    /// u: the read part had fewer bytes than were expected.
    pub bidirectional_underflow: bool,
    /// O: the command had more bytes than were expected.
    pub overflow: bool,
    /// U: the command had fewer bytes than were expected.
    pub underflow: bool,
    /// 0 where the command completed at the target.
    pub response: u8,
    /// SCSI status: 00 GOOD, 02 CHECK CONDITION. It is there where `response` is 0.
    pub status: Option<u8>,
    /// The initiator's tag of the task.
    pub initiator_task_tag: u32,
    /// StatSN of this PDU.
    pub stat_sn: u32,
    /// ExpCmdSN: the next CmdSN that the target expects.
    pub exp_cmd_sn: u32,
    /// MaxCmdSN: the last CmdSN that the target takes.
    pub max_cmd_sn: u32,
    /// ExpDataSN: how many Data-In PDUs the target sent for the command. It is there where
    /// `response` is 0.
    pub exp_data_sn: Option<u32>,
    /// Bytes. It is there where one of the two bidirectional bits is set.
    pub bidirectional_residual: Option<u32>,
    /// Bytes. It is there where `overflow` or `underflow` is set.
    pub residual: Option<u32>,
}

impl ScsiResponse {
    pub(crate) fn read(bytes: &[u8; 48]) -> ScsiResponse
        ensures { RowsHold bytes.now (scsi_response result) }
    {
        let bidirectional_overflow = bit(bytes, 1, 0x10);
        let bidirectional_underflow = bit(bytes, 1, 0x08);
        let overflow = bit(bytes, 1, 0x04);
        let underflow = bit(bytes, 1, 0x02);
        let response = u8_at(bytes, 2);
        ScsiResponse {
            bidirectional_overflow,
            bidirectional_underflow,
            overflow,
            underflow,
            response,
            status: (response == 0).then_some(u8_at(bytes, 3)),
            initiator_task_tag: u32_at(bytes, 16),
            stat_sn: u32_at(bytes, 24),
            exp_cmd_sn: u32_at(bytes, 28),
            max_cmd_sn: u32_at(bytes, 32),
            exp_data_sn: (response == 0).then_some(u32_at(bytes, 36)),
            bidirectional_residual: (bidirectional_overflow || bidirectional_underflow).then_some(
                u32_at(bytes, 40),
            ),
            residual: (overflow || underflow).then_some(u32_at(bytes, 44)),
        }
    }

    pub(crate) fn write(&self, out: &mut [u8; 48])
        requires { AreFilled (scsi_response self.now) }
        ensures written { out.new ≡ put_all (scsi_response self.now) out.old }
        ensures room { HaveRoom (scsi_response self.now) }
    {
        put_bit(out, 1, 0x10, self.bidirectional_overflow);
        put_bit(out, 1, 0x08, self.bidirectional_underflow);
        put_bit(out, 1, 0x04, self.overflow);
        put_bit(out, 1, 0x02, self.underflow);
        put_u8(out, 2, self.response);
        put_u8_if(out, 3, self.status);
        put_u32(out, 16, self.initiator_task_tag);
        put_u32(out, 24, self.stat_sn);
        put_u32(out, 28, self.exp_cmd_sn);
        put_u32(out, 32, self.max_cmd_sn);
        put_u32_if(out, 36, self.exp_data_sn);
        put_u32_if(out, 40, self.bidirectional_residual);
        put_u32_if(out, 44, self.residual);
    }
}
