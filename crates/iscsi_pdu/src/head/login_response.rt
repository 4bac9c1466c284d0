//! The header of a Login Response (RFC 7143, section 11.13).

ghost use Rattle.std.specs.Prelude.{◌≡◌};
ghost use Rattle.scsi_cdb.specs.Layout.{RowsHold, AreFilled, HaveRoom, put_all};
ghost use Rattle.iscsi_pdu.specs.Fields.{login_response};

use scsi_cdb::layout::{
    array_at, bit, bits, put_bit, put_number, put_number_if, put_raw, put_u8, put_u16, put_u32,
    put_u32_if, u8_at, u16_at, u32_at,
};

/// A Login Response, opcode 23, with a text in its segment (RFC 7143, section 11.13).
#[derive(Clone, Copy, Debug, PartialEq, Eq)]
pub struct LoginResponse {
    /// T: the target moves on to `next_stage`.
    pub transits: bool,
    /// C: the text goes on in the next Login Response.
    pub continues: bool,
    /// CSG, 0 to 3: 0 is security, 1 operational negotiation, 3 full feature phase.
    pub current_stage: u8,
    /// NSG, 0 to 3. It is there where `transits` is set.
    pub next_stage: Option<u8>,
    /// The highest version that the target speaks.
    pub version_max: u8,
    /// The version of this session.
    pub version_active: u8,
    /// ISID: the initiator's part of the session's name.
    pub isid: [u8; 6],
    /// TSIH: the target's part of the session's name.
    pub tsih: u16,
    /// The initiator's tag of the task.
    pub initiator_task_tag: u32,
    /// StatSN. It is there where `status_class` is 0.
    pub stat_sn: Option<u32>,
    /// ExpCmdSN: the next CmdSN that the target expects.
    pub exp_cmd_sn: u32,
    /// MaxCmdSN: the last CmdSN that the target takes.
    pub max_cmd_sn: u32,
    /// Status-Class: 0 for success.
    pub status_class: u8,
    /// Status-Detail, within its class.
    pub status_detail: u8,
}

impl LoginResponse {
    pub(crate) fn read(bytes: &[u8; 48]) -> LoginResponse
        ensures { RowsHold bytes.now (login_response result) }
    {
        let transits = bit(bytes, 1, 0x80);
        let status_class = u8_at(bytes, 36);
        LoginResponse {
            transits,
            continues: bit(bytes, 1, 0x40),
            current_stage: bits(bytes, 1, 0x0c),
            next_stage: transits.then_some(bits(bytes, 1, 0x03)),
            version_max: u8_at(bytes, 2),
            version_active: u8_at(bytes, 3),
            isid: array_at(bytes, 8),
            tsih: u16_at(bytes, 14),
            initiator_task_tag: u32_at(bytes, 16),
            stat_sn: (status_class == 0).then_some(u32_at(bytes, 24)),
            exp_cmd_sn: u32_at(bytes, 28),
            max_cmd_sn: u32_at(bytes, 32),
            status_class,
            status_detail: u8_at(bytes, 37),
        }
    }

    pub(crate) fn write(&self, out: &mut [u8; 48])
        requires { AreFilled (login_response self.now) }
        ensures written { out.new ≡ put_all (login_response self.now) out.old }
        ensures room { HaveRoom (login_response self.now) }
    {
        put_bit(out, 1, 0x80, self.transits);
        put_bit(out, 1, 0x40, self.continues);
        put_number(out, 1, 0x0c, self.current_stage);
        put_number_if(out, 1, 0x03, self.next_stage);
        put_u8(out, 2, self.version_max);
        put_u8(out, 3, self.version_active);
        put_raw(out, 8, &self.isid);
        put_u16(out, 14, self.tsih);
        put_u32(out, 16, self.initiator_task_tag);
        put_u32_if(out, 24, self.stat_sn);
        put_u32(out, 28, self.exp_cmd_sn);
        put_u32(out, 32, self.max_cmd_sn);
        put_u8(out, 36, self.status_class);
        put_u8(out, 37, self.status_detail);
    }
}
