//! The header of a SCSI Data-Out (RFC 7143, section 11.7).

ghost use Rattle.std.specs.Prelude.{◌≡◌};
ghost use Rattle.scsi_cdb.specs.Layout.{RowsHold, AreFilled, HaveRoom, put_all};
ghost use Rattle.iscsi_pdu.specs.Fields.{data_out};

use crate::RESERVED_TAG;
use scsi_cdb::layout::{bit, put_bit, put_u32, put_u64_if, u32_at, u64_at};

/// A SCSI Data-Out, opcode 05: data of a write, in its segment (RFC 7143, section 11.7).
#[derive(Clone, Copy, Debug, PartialEq, Eq)]
pub struct DataOut {
    /// F: the last PDU of its sequence.
    pub is_final: bool,
    /// It is there where `target_transfer_tag` is not `RESERVED_TAG`.
    pub lun: Option<u64>,
    /// The initiator's tag of the task.
    pub initiator_task_tag: u32,
    /// That of the R2T that is answered, or the reserved tag for unsolicited data.
    pub target_transfer_tag: u32,
    /// ExpStatSN: the next StatSN that the initiator expects.
    pub exp_stat_sn: u32,
    /// DataSN: the number of this PDU in its sequence, from 0.
    pub data_sn: u32,
    /// Where the data belong, in bytes from the start of the command's data.
    pub buffer_offset: u32,
}

impl DataOut {
    pub(crate) fn read(bytes: &[u8; 48]) -> DataOut
        ensures { RowsHold bytes.now (data_out result) }
    {
        let target_transfer_tag = u32_at(bytes, 20);
        DataOut {
            is_final: bit(bytes, 1, 0x80),
            lun: (target_transfer_tag != RESERVED_TAG).then_some(u64_at(bytes, 8)),
            initiator_task_tag: u32_at(bytes, 16),
            target_transfer_tag,
            exp_stat_sn: u32_at(bytes, 28),
            data_sn: u32_at(bytes, 36),
            buffer_offset: u32_at(bytes, 40),
        }
    }

    pub(crate) fn write(&self, out: &mut [u8; 48])
        requires { AreFilled (data_out self.now) }
        ensures written { out.new ≡ put_all (data_out self.now) out.old }
        ensures room { HaveRoom (data_out self.now) }
    {
        put_bit(out, 1, 0x80, self.is_final);
        put_u64_if(out, 8, self.lun);
        put_u32(out, 16, self.initiator_task_tag);
        put_u32(out, 20, self.target_transfer_tag);
        put_u32(out, 28, self.exp_stat_sn);
        put_u32(out, 36, self.data_sn);
        put_u32(out, 40, self.buffer_offset);
    }
}
