//! What another program does with `scsi_cdb`.

ghost use Rattle.scsi_cdb.specs.declared.cdb.Cdb.{Cdb};
ghost use Rattle.scsi_cdb.specs.Blocks.{IsRecord};

use scsi_cdb::Cdb;

/// The canonical block of the command that a block means.
pub fn canonical_block(block: &[u8; 16]) -> [u8; 16]
    ensures means { (c : Cdb) → IsRecord block.now c → IsRecord result c }
{
    Cdb::read(block).write()
}
