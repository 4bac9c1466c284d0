//! The header of an Asynchronous Message (RFC 7143, section 11.9).

ghost use Rattle.std.specs.Prelude.{◌≡◌};
ghost use Rattle.scsi_cdb.specs.Layout.{RowsHold, AreFilled, HaveRoom, put_all};
ghost use Rattle.iscsi_pdu.specs.Fields.{async_message};

use scsi_cdb::layout::{put_u8, put_u16, put_u32, put_u64_if, u8_at, u16_at, u32_at, u64_at};

/// An Asynchronous Message, opcode 32: the target tells of an event (RFC 7143, section 11.9).
#[derive(Clone, Copy, Debug, PartialEq, Eq)]
pub struct AsyncMessage {
    /// The unit of the event. It is there where `async_event` is 0 or 5.
    pub lun: Option<u64>,
    /// StatSN of this PDU.
    pub stat_sn: u32,
    /// ExpCmdSN: the next CmdSN that the target expects.
    pub exp_cmd_sn: u32,
    /// MaxCmdSN: the last CmdSN that the target takes.
    pub max_cmd_sn: u32,
    /// AsyncEvent: which event it is.
    pub async_event: u8,
    /// AsyncVCode, the vendor's code of a vendor's event.
    pub async_vendor_code: u8,
    /// By the event.
    pub parameter1: u16,
    /// By the event.
    pub parameter2: u16,
    /// By the event.
    pub parameter3: u16,
}

impl AsyncMessage {
    pub(crate) fn read(bytes: &[u8; 48]) -> AsyncMessage
        ensures { RowsHold bytes.now (async_message result) }
    {
        let async_event = u8_at(bytes, 36);
        AsyncMessage {
            lun: (async_event == 0 || async_event == 5).then_some(u64_at(bytes, 8)),
            stat_sn: u32_at(bytes, 24),
            exp_cmd_sn: u32_at(bytes, 28),
            max_cmd_sn: u32_at(bytes, 32),
            async_event,
            async_vendor_code: u8_at(bytes, 37),
            parameter1: u16_at(bytes, 38),
            parameter2: u16_at(bytes, 40),
            parameter3: u16_at(bytes, 42),
        }
    }

    pub(crate) fn write(&self, out: &mut [u8; 48])
        requires { AreFilled (async_message self.now) }
        ensures written { out.new ≡ put_all (async_message self.now) out.old }
        ensures room { HaveRoom (async_message self.now) }
    {
        put_u64_if(out, 8, self.lun);
        put_u32(out, 24, self.stat_sn);
        put_u32(out, 28, self.exp_cmd_sn);
        put_u32(out, 32, self.max_cmd_sn);
        put_u8(out, 36, self.async_event);
        put_u8(out, 37, self.async_vendor_code);
        put_u16(out, 38, self.parameter1);
        put_u16(out, 40, self.parameter2);
        put_u16(out, 42, self.parameter3);
    }
}
