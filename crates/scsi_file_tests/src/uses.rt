//! What another program does with `scsi_file`.

ghost use Rattle.std.specs.Prelude.{◌≡◌, ◌+◌, ◌<◌, IfOk, IsTrue};
ghost use Rattle.scsi_disk.specs.Disk.{disk_written};
ghost use Rattle.scsi_disk.specs.Lasting.{SettledDisk};
ghost use Rattle.scsi_file.specs.FileStore.{failed_by, store_medium};

use scsi_disk::{BlockStore, StoreFault};
use scsi_file::{FileStore, Medium};

/// Puts a block in the place of another inside a medium, so that it lasts.
pub fn keep_block<M: Medium + Drop>(
    medium: M,
    lba: u64,
    block: &[u8; 512],
) -> Result<FileStore<M>, StoreFault>
    requires usable { IsTrue (M.Medium.usable medium) }
    requires inside { lba < (M.Medium.seen medium).count }
    ensures lasts { IfOk result (λ store.
        failed_by store + M.Medium.untold (store_medium store) ≡ M.Medium.untold medium
        → SettledDisk (disk_written lba block.now (M.Medium.seen medium))
        (M.Medium.kept (store_medium store))) }
{
    let mut store = FileStore::new(medium)?;
    store.write(lba, block)?;
    store.sync()?;
    Ok(store)
}
