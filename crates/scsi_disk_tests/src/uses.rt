//! What another program does with `scsi_disk`.

ghost use Rattle.std.specs.Prelude.{◌≡◌, ◌<◌, OnOk};
ghost use Rattle.scsi_disk.specs.Disk.{blocks_from, disk_written};

use scsi_disk::{BlockStore, StoreFault};

/// Copies a block to the place of another; both lie inside the store.
pub fn copy_block<S: BlockStore>(store: &mut S, from: u64, to: u64) -> Result<(), StoreFault>
    requires from { from < (S.disk store.old).count }
    requires to { to < (S.disk store.old).count }
    ensures copied { OnOk result (S.failures store.new ≡ S.failures store.old → S.disk store.new
        ≡ disk_written to (blocks_from (S.disk store.old) from 1) (S.disk store.old)) }
{
    let mut block = [0; 512];
    store.read(from, &mut block)?;
    store.write(to, &block)
}
