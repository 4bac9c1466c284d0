//! What another program does with `nbd_client`.

ghost use Rattle.std.specs.Prelude.{◌≡◌, ◌+◌, ◌<◌, IfOk, IsTrue};
ghost use Rattle.scsi_disk.specs.Disk.{disk_written};
ghost use Rattle.scsi_disk.specs.Lasting.{SettledDisk};
ghost use Rattle.scsi_file.specs.FileStore.{failed_by, store_medium};
ghost use Rattle.nbd_client.specs.Ended.{medium_line};

use nbd_client::{Line, NbdMedium, Silent};
use scsi_disk::{BlockStore, StoreFault};
use scsi_file::{FileStore, Medium};

/// Puts a block in the place of another on an NBD server, so that it lasts.
pub fn keep_block<L: Line + Drop>(
    line: L,
    lba: u64,
    block: &[u8; 512],
) -> Result<FileStore<NbdMedium<L, Silent>>, StoreFault>
    requires inside { lba < (L.Line.disk line).count }
    ensures lasts { IfOk result (λ store.
        failed_by store + L.Line.untold (medium_line (store_medium store)) ≡ L.Line.untold line
        → SettledDisk (disk_written lba block.now (L.Line.disk line))
        (L.Line.kept (medium_line (store_medium store)))) }
{
    keep_on(NbdMedium::new(line, Silent), lba, block)
}

// The same on any medium.
fn keep_on<M: Medium + Drop>(
    medium: M,
    lba: u64,
    block: &[u8; 512],
) -> Result<FileStore<M>, StoreFault>
    requires usable { IsTrue (M.Medium.usable medium) }
    requires inside { lba < (M.Medium.seen medium).count }
    ensures lasts { IfOk result (λ store.
        failed_by store + M.Medium.untold (store_medium store) ≡ M.Medium.untold medium
        → SettledDisk (disk_written lba block.now (M.Medium.seen medium))
        (M.Medium.kept (store_medium store))) }
{
    let mut store = FileStore::new(medium)?;
    store.write(lba, block)?;
    store.sync()?;
    Ok(store)
}
