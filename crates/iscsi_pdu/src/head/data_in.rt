//! The header of a SCSI Data-In (RFC 7143, section 11.7).

ghost use Rattle.std.specs.Prelude.{◌≡◌};
ghost use Rattle.scsi_cdb.specs.Layout.{RowsHold, AreFilled, HaveRoom, put_all};
ghost use Rattle.iscsi_pdu.specs.Fields.{data_in};

use crate::RESERVED_TAG;
use scsi_cdb::layout::{
    bit, put_bit, put_bit_if, put_u8_if, put_u32, put_u32_if, put_u64_if, u8_at, u32_at, u64_at,
};

/// A SCSI Data-In, opcode 25: data of a read, in its segment (RFC 7143, section 11.7).
#[derive(Clone, Copy, Debug, PartialEq, Eq)]
pub struct DataIn {
    /// F: the last PDU of its sequence.
    pub is_final: bool,
    /// A: the target asks for an acknowledgement.
    pub acknowledge: bool,
    /// O. It is there where `has_status` is set.
    pub overflow: Option<bool>,
    /// U. It is there where `has_status` is set.
    pub underflow: Option<bool>,
    /// S: the PDU ends its command, and has the status.
    pub has_status: bool,
    /// SCSI status. It is there where `has_status` is set.
    pub status: Option<u8>,
    /// It is there where `target_transfer_tag` is not `RESERVED_TAG` (own rule).
    pub lun: Option<u64>,
    /// The initiator's tag of the task.
    pub initiator_task_tag: u32,
    /// The target's tag of the transfer.
    pub target_transfer_tag: u32,
    /// StatSN. It is there where `has_status` is set.
    pub stat_sn: Option<u32>,
    /// ExpCmdSN: the next CmdSN that the target expects.
    pub exp_cmd_sn: u32,
    /// MaxCmdSN: the last CmdSN that the target takes.
    pub max_cmd_sn: u32,
    /// DataSN: the number of this PDU in its command, from 0.
    pub data_sn: u32,
    /// Where the data go, in bytes from the start of the command's data.
    pub buffer_offset: u32,
    /// ResidualCount, bytes. It is there where `has_status` is set.
    pub residual: Option<u32>,
}

impl DataIn {
    pub(crate) fn read(bytes: &[u8; 48]) -> DataIn
        ensures { RowsHold bytes.now (data_in result) }
    {
        let has_status = bit(bytes, 1, 0x01);
        let target_transfer_tag = u32_at(bytes, 20);
        DataIn {
            is_final: bit(bytes, 1, 0x80),
            acknowledge: bit(bytes, 1, 0x40),
            overflow: has_status.then_some(bit(bytes, 1, 0x04)),
            underflow: has_status.then_some(bit(bytes, 1, 0x02)),
            has_status,
            status: has_status.then_some(u8_at(bytes, 3)),
            lun: (target_transfer_tag != RESERVED_TAG).then_some(u64_at(bytes, 8)),
            initiator_task_tag: u32_at(bytes, 16),
            target_transfer_tag,
            stat_sn: has_status.then_some(u32_at(bytes, 24)),
            exp_cmd_sn: u32_at(bytes, 28),
            max_cmd_sn: u32_at(bytes, 32),
            data_sn: u32_at(bytes, 36),
            buffer_offset: u32_at(bytes, 40),
            residual: has_status.then_some(u32_at(bytes, 44)),
        }
    }

    pub(crate) fn write(&self, out: &mut [u8; 48])
        requires { AreFilled (data_in self.now) }
        ensures written { out.new ≡ put_all (data_in self.now) out.old }
        ensures room { HaveRoom (data_in self.now) }
    {
        put_bit(out, 1, 0x80, self.is_final);
        put_bit(out, 1, 0x40, self.acknowledge);
        put_bit_if(out, 1, 0x04, self.overflow);
        put_bit_if(out, 1, 0x02, self.underflow);
        put_bit(out, 1, 0x01, self.has_status);
        put_u8_if(out, 3, self.status);
        put_u64_if(out, 8, self.lun);
        put_u32(out, 16, self.initiator_task_tag);
        put_u32(out, 20, self.target_transfer_tag);
        put_u32_if(out, 24, self.stat_sn);
        put_u32(out, 28, self.exp_cmd_sn);
        put_u32(out, 32, self.max_cmd_sn);
        put_u32(out, 36, self.data_sn);
        put_u32(out, 40, self.buffer_offset);
        put_u32_if(out, 44, self.residual);
    }
}
