//! A store on a medium, whose writes last once it is synced.

ghost use Rattle.std.specs.Prelude.{◌≡◌, true, false, ◌+◌, ◌*◌, ◌<◌, ◌≤◌, IfOk, IsTrue};
ghost use Rattle.scsi_disk.specs.Lasting.{LastsOnceSynced, SettledDisk};

use crate::medium::Medium;
use scsi_disk::{BlockStore, StoreFault};

/// A store on a medium: what was written lasts once it is synced.
///
/// A sync asks the medium only where something was written since the last one, so one of them
/// serves several writes. It tells once that it failed. Behind that the medium is asked nothing
/// more, and each read and write fails, since what was written may be lost with no further error.
/// With a write cache each sync fails, too: writes that were answered before it may be lost.
#[derive(Drop)]
pub struct FileStore<M: Medium> {
    medium: M,
    failed: u64,
    broken: bool,
    // nothing was written since the last sync, or that one failed
    synced: bool,
    // writes are answered before they last
    write_back: bool,
    ghost sound: { broken ≡ false → IsTrue (M.Medium.usable medium) },
    ghost quiet: { broken ≡ true → synced ≡ true },
    ghost lasts: { failed + M.Medium.untold medium ≡ 0
        → LastsOnceSynced synced (M.Medium.seen medium) (M.Medium.kept medium) },
}

impl<M: Medium + Drop> FileStore<M> {
    ghost use Rattle.scsi_file.specs.FileStore.{store_medium, failed_by, is_synced};

    /// A store on a medium, all that a read of it gives being made to last first. The fault is that
    /// this sync failed.
    pub fn new(medium: M) -> Result<FileStore<M>, StoreFault>
        requires { IsTrue (M.Medium.usable medium) }
        ensures seen { IfOk result (λ store.
            M.Medium.seen (store_medium store) ≡ M.Medium.seen medium) }
        ensures settled { IfOk result (λ store.
            M.Medium.untold (store_medium store) ≡ M.Medium.untold medium
            → SettledDisk (M.Medium.seen (store_medium store))
            (M.Medium.kept (store_medium store))) }
        ensures synced { IfOk result (λ store. is_synced store ≡ true) }
        ensures failed { IfOk result (λ store. failed_by store ≡ 0) }
        ensures untold { IfOk result (λ store.
            M.Medium.untold medium ≤ M.Medium.untold (store_medium store)) }
    {
        let mut medium = medium;
        medium.sync()?;
        Ok(FileStore {
            medium,
            failed: 0,
            broken: false,
            synced: true,
            write_back: false,
        })
    }

    /// The same store, of whose writes some are answered before they last. Once a sync has failed, each
    /// later one fails as well: so no initiator that asks once more is told that all lasts.
    pub fn with_write_back(self) -> FileStore<M>
        ensures seen { store_medium result ≡ store_medium self }
        ensures synced { is_synced result ≡ is_synced self }
        ensures failed { failed_by result ≡ failed_by self }
    {
        FileStore {
            medium: self.medium,
            failed: self.failed,
            broken: self.broken,
            synced: self.synced,
            write_back: true,
        }
    }
}

impl<M: Medium> FileStore<M> {
    ghost use Rattle.scsi_file.specs.FileStore.{store_medium, failed_by};

    /// The medium.
    pub fn medium(&self) -> &M
        ensures { result.now ≡ store_medium self.now }
    {
        &self.medium
    }

    /// The medium, as the store leaves it.
    pub fn into_medium(self) -> M
        ensures { result ≡ store_medium self }
    {
        self.medium
    }
}

impl<M: Medium> BlockStore for FileStore<M> {
    ghost disk = { λ s. M.Medium.seen s.medium };

    ghost failures = { λ s. s.failed + M.Medium.untold s.medium };

    ghost untold = { λ s. M.Medium.untold s.medium };

    ghost kept = { λ s. M.Medium.kept s.medium };

    ghost synced = { λ s. s.synced };

    ghost stays = { λ s n. M.Medium.stays s.medium n };

    ghost lasts = { λ s. s.lasts };

    fn is_protected(&self) -> bool {
        false
    }

    fn blocks(&self) -> u64 {
        self.medium.blocks()
    }

    fn failures(&self) -> u64 {
        self.failed
    }

    fn read(&mut self, lba: u64, out: &mut [u8]) -> Result<(), StoreFault> {
        if self.failed == u64::MAX {
            return Err(StoreFault::NoMemory);
        }
        if self.broken {
            return Err(fail(&mut self.failed));
        }
        match self.medium.read_at(lba, out) {
            Err(StoreFault::Device) => Err(fail(&mut self.failed)),
            answer => answer,
        }
    }

    fn write(&mut self, lba: u64, bytes: &[u8]) -> Result<(), StoreFault> {
        if self.failed == u64::MAX {
            return Err(StoreFault::NoMemory);
        }
        if self.broken {
            return Err(fail(&mut self.failed));
        }
        match self.medium.write_at(lba, bytes) {
            Err(StoreFault::NoMemory) => Err(StoreFault::NoMemory),
            Err(StoreFault::Device) => {
                self.synced = false;
                Err(fail(&mut self.failed))
            }
            Ok(()) => {
                self.synced = false;
                Ok(())
            }
        }
    }

    fn sync(&mut self) -> Result<(), StoreFault> {
        if self.synced && !(self.broken && self.write_back) {
            return Ok(());
        }
        if self.failed == u64::MAX {
            return Err(StoreFault::NoMemory);
        }
        if self.broken {
            return Err(fail(&mut self.failed));
        }
        // A write whose sync fails may be lost, and waits for none any more.
        self.synced = true;
        if self.medium.sync().is_err() {
            self.broken = true;
            return Err(fail(&mut self.failed));
        }
        Ok(())
    }
}

// Counts a failure.
fn fail(failed: &mut u64) -> StoreFault
    requires { failed.old < 18446744073709551615 }
    ensures counted { failed.new ≡ failed.old + 1 }
    ensures device { result ≡ StoreFault.Device }
{
    *failed += 1;
    StoreFault::Device
}
