//! The header of a SCSI Command (RFC 7143, section 11.3).

ghost use Rattle.std.specs.Prelude.{◌≡◌, ◌++◌};
ghost use Rattle.scsi_cdb.specs.Blocks.{CdbFits, IsRecord, canonical};
ghost use Rattle.scsi_cdb.specs.Layout.{RowsHold, AreFilled, HaveRoom, put_all, part};
ghost use Rattle.iscsi_pdu.specs.Fields.{scsi_command, block_rows};

use scsi_cdb::Cdb;
use scsi_cdb::layout::{
    array_at, bit, bits, put_bit, put_number, put_raw, put_u32, put_u64, u32_at, u64_at,
};

/// A SCSI Command, opcode 01. Immediate data stand in its segment (RFC 7143, section 11.3).
#[derive(Clone, Copy, Debug, PartialEq, Eq)]
pub struct ScsiCommand {
    /// I: the command is for immediate delivery.
    pub immediate: bool,
    /// F: no unsolicited Data-Out follows.
    pub is_final: bool,
    /// R: data are expected from the target.
    pub read: bool,
    /// W: data are given to the target.
    pub write: bool,
    /// ATTR, 0 to 7: the task attribute, 1 for simple.
    pub attribute: u8,
    /// The logical unit.
    pub lun: u64,
    /// The initiator's tag of the task.
    pub initiator_task_tag: u32,
    /// How many bytes the initiator gives or expects.
    pub expected_data_transfer_length: u32,
    /// CmdSN of this PDU.
    pub cmd_sn: u32,
    /// ExpStatSN: the next StatSN that the initiator expects.
    pub exp_stat_sn: u32,
    /// The command descriptor block, by the table of descriptor blocks.
    pub cdb: Cdb,
}

impl ScsiCommand {
    pub(crate) fn read(bytes: &[u8; 48]) -> ScsiCommand
        ensures rows { RowsHold bytes.now (scsi_command result) }
        ensures block { IsRecord (part 32 47 bytes.now) result.cdb }
    {
        ScsiCommand {
            immediate: bit(bytes, 0, 0x40),
            is_final: bit(bytes, 1, 0x80),
            read: bit(bytes, 1, 0x40),
            write: bit(bytes, 1, 0x20),
            attribute: bits(bytes, 1, 0x07),
            lun: u64_at(bytes, 8),
            initiator_task_tag: u32_at(bytes, 16),
            expected_data_transfer_length: u32_at(bytes, 20),
            cmd_sn: u32_at(bytes, 24),
            exp_stat_sn: u32_at(bytes, 28),
            cdb: Cdb::read(&array_at(bytes, 32)),
        }
    }

    pub(crate) fn write(&self, out: &mut [u8; 48])
        requires rows { AreFilled (scsi_command self.now) }
        requires block { CdbFits self.now.cdb }
        ensures written { out.new ≡
            put_all (scsi_command self.now ++ block_rows self.now.cdb) out.old }
        ensures room { HaveRoom (scsi_command self.now) }
        ensures block { IsRecord (canonical self.now.cdb) self.now.cdb }
    {
        put_bit(out, 0, 0x40, self.immediate);
        put_bit(out, 1, 0x80, self.is_final);
        put_bit(out, 1, 0x40, self.read);
        put_bit(out, 1, 0x20, self.write);
        put_number(out, 1, 0x07, self.attribute);
        put_u64(out, 8, self.lun);
        put_u32(out, 16, self.initiator_task_tag);
        put_u32(out, 20, self.expected_data_transfer_length);
        put_u32(out, 24, self.cmd_sn);
        put_u32(out, 28, self.exp_stat_sn);
        put_raw(out, 32, &self.cdb.write());
    }
}
