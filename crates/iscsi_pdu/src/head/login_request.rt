//! The header of a Login Request (RFC 7143, section 11.12).

ghost use Rattle.std.specs.Prelude.{◌≡◌};
ghost use Rattle.scsi_cdb.specs.Layout.{RowsHold, AreFilled, HaveRoom, put_all};
ghost use Rattle.iscsi_pdu.specs.Fields.{login_request};

use scsi_cdb::layout::{
    array_at, bit, bits, put_bit, put_number, put_number_if, put_raw, put_u8, put_u16, put_u32,
    u8_at, u16_at, u32_at,
};

/// A Login Request, opcode 03, with a text in its segment (RFC 7143, section 11.12).
#[derive(Clone, Copy, Debug, PartialEq, Eq)]
pub struct LoginRequest {
    /// T: the initiator is ready to move on to `next_stage`.
    pub transits: bool,
    /// C: the text goes on in the next Login Request.
    pub continues: bool,
    /// CSG, 0 to 3: 0 is security, 1 operational negotiation, 3 full feature phase.
    pub current_stage: u8,
    /// NSG, 0 to 3. It is there where `transits` is set.
    pub next_stage: Option<u8>,
    /// The highest version that the initiator speaks.
    pub version_max: u8,
    /// The lowest version that the initiator speaks.
    pub version_min: u8,
    /// ISID: the initiator's part of the session's name.
    pub isid: [u8; 6],
    /// TSIH: the target's part of the session's name, 0 for a new session.
    pub tsih: u16,
    /// The initiator's tag of the task.
    pub initiator_task_tag: u32,
    /// CID: the connection within its session.
    pub connection_id: u16,
    /// CmdSN of this PDU.
    pub cmd_sn: u32,
    /// ExpStatSN: the next StatSN that the initiator expects.
    pub exp_stat_sn: u32,
}

impl LoginRequest {
    pub(crate) fn read(bytes: &[u8; 48]) -> LoginRequest
        ensures { RowsHold bytes.now (login_request result) }
    {
        let transits = bit(bytes, 1, 0x80);
        LoginRequest {
            transits,
            continues: bit(bytes, 1, 0x40),
            current_stage: bits(bytes, 1, 0x0c),
            next_stage: transits.then_some(bits(bytes, 1, 0x03)),
            version_max: u8_at(bytes, 2),
            version_min: u8_at(bytes, 3),
            isid: array_at(bytes, 8),
            tsih: u16_at(bytes, 14),
            initiator_task_tag: u32_at(bytes, 16),
            connection_id: u16_at(bytes, 20),
            cmd_sn: u32_at(bytes, 24),
            exp_stat_sn: u32_at(bytes, 28),
        }
    }

    pub(crate) fn write(&self, out: &mut [u8; 48])
        requires { AreFilled (login_request self.now) }
        ensures written { out.new ≡ put_all (login_request self.now) out.old }
        ensures room { HaveRoom (login_request self.now) }
    {
        put_bit(out, 1, 0x80, self.transits);
        put_bit(out, 1, 0x40, self.continues);
        put_number(out, 1, 0x0c, self.current_stage);
        put_number_if(out, 1, 0x03, self.next_stage);
        put_u8(out, 2, self.version_max);
        put_u8(out, 3, self.version_min);
        put_raw(out, 8, &self.isid);
        put_u16(out, 14, self.tsih);
        put_u32(out, 16, self.initiator_task_tag);
        put_u16(out, 20, self.connection_id);
        put_u32(out, 24, self.cmd_sn);
        put_u32(out, 28, self.exp_stat_sn);
    }
}
