//! What a store of blocks does, and how it fails.

ghost use Rattle.std.specs.Prelude.{◌≡◌, ℕ, List, Bool, true, false, ◌+◌, ◌*◌, ◌/◌, ◌%◌, ◌≤◌, ◌++◌, length, OnOk, OnErr, IsErrOf};
ghost use Rattle.scsi_disk.specs.Disk.{Disk, IsDisk, AppendsBytes, blocks_from, disk_written, IsOldOrNew, StoreTellsFailures};
ghost use Rattle.scsi_disk.specs.Lasting.{CrashAddsDisk, LastsOnceSynced, Within};

use std::alloc::AllocError;
use thiserror::Error;

/// Why a store did not do what it was asked.
#[derive(Clone, Copy, Debug, PartialEq, Eq, Error)]
pub enum StoreFault {
    /// Memory ran out. No block has changed.
    #[error("no memory")]
    NoMemory,
    /// The device failed. A read has changed no block, and a write left each of its blocks old or
    /// new.
    #[error("the device failed")]
    Device,
}

impl From<AllocError> for StoreFault {
    ghost use Rattle.std.specs.Prelude.{◌≡◌};
    ghost use Rattle.scsi_disk.specs.declared.store.StoreFault.TheVariants.{NoMemory};

    ghost from_gives = { λ _ e. e ≡ NoMemory };

    fn from(_: AllocError) -> StoreFault {
        StoreFault::NoMemory
    }
}

/// Blocks of 512 bytes, numbered from 0.
///
/// Contracts see a store as the number of its blocks with the bytes of each, and as the number of
/// times that its device failed. They also see it as what each block may be after a crash, block by
/// block. What they say of blocks is so where no failure was counted.
pub trait BlockStore {
    /// What is stored, however it is kept.
    ghost disk: { Self → Disk };

    /// How often the device failed, told or untold.
    ghost failures: { Self → ℕ };

    /// How often it failed and told something else: a wrong answer, or a write that is not there.
    ghost untold: { Self → ℕ } = { λ _. 0 };

    /// What each block may be after a crash at this moment.
    ghost kept: { Self → ℕ → List ℕ → Type 0 };

    /// No write waits for a sync to last.
    ghost synced: { Self → Bool } = { λ _. true };

    /// It refuses each write.
    ghost protected: { Bool } = { false };

    /// Whether it refuses each write. Then a WRITE is refused before the store is asked.
    fn is_protected(&self) -> bool
        ensures { result ≡ protected };

    /// How many blocks there are: at least 1, and always as many.
    fn blocks(&self) -> u64
        ensures count { result ≡ (disk self.now).count }
        ensures disk { IsDisk (disk self.now) };

    /// How often the device failed and told it.
    fn failures(&self) -> u64
        ensures { result + untold self.now ≡ failures self.now };

    /// Reads the whole blocks that `out` has room for, from block `lba` on. They lie inside the
    /// store. `Device` is returned exactly if the count of `failures()` rose. No block changes.
    fn read(&mut self, lba: u64, out: &mut [u8]) -> Result<(), StoreFault>
        requires whole { length out.old % 512 ≡ 0 }
        requires inside { 512 * lba + length out.old ≤ 512 * (disk self.old).count }
        ensures ok { OnOk result (failures self.new ≡ failures self.old
            → out.new ≡ blocks_from (disk self.old) lba (length out.old / 512)) }
        ensures disk { disk self.new ≡ disk self.old }
        ensures kept { Within (kept self.old) (kept self.new) }
        ensures lasts { failures self.new ≡ failures self.old
            → LastsOnceSynced (synced self.old) (disk self.old) (kept self.old)
            → LastsOnceSynced (synced self.new) (disk self.new) (kept self.new) }
        ensures tells { StoreTellsFailures (disk self.old).tells (failures self.old)
            (failures self.new)
            (untold self.old) (untold self.new) result };

    /// Appends `n` whole blocks, from block `lba` on, to `out`. They lie inside the store.
    /// After an error `out` is as it was: `NoMemory` may also say that it could not grow, and
    /// `Device` comes as it does of a read. No block changes.
    ///
    /// A store that has its blocks in memory copies them once.
    fn read_onto(&mut self, lba: u64, blocks: u32, out: &mut Vec<u8>) -> Result<(), StoreFault>
        requires inside { lba + blocks ≤ (disk self.old).count }
        ensures ok { OnOk result (failures self.new ≡ failures self.old
            → out.new.items ≡ out.old.items ++ blocks_from (disk self.old) lba blocks) }
        ensures appends { OnOk result (AppendsBytes (512 * blocks) out.old.items out.new.items) }
        ensures err { OnErr result (out.new.items ≡ out.old.items) }
        ensures disk { disk self.new ≡ disk self.old }
        ensures kept { Within (kept self.old) (kept self.new) }
        ensures lasts { failures self.new ≡ failures self.old
            → LastsOnceSynced (synced self.old) (disk self.old) (kept self.old)
            → LastsOnceSynced (synced self.new) (disk self.new) (kept self.new) }
        ensures tells { StoreTellsFailures (disk self.old).tells (failures self.old)
            (failures self.new)
            (untold self.old) (untold self.new) result }
    {
        let start = out.len();
        out.resize(start + 512 * blocks as usize, 0)?;
        let answer = self.read(lba, &mut out[start..]);
        if answer.is_err() {
            out.truncate(start);
        }
        answer
    }

    /// Writes whole blocks, from block `lba` on. They lie inside the store.
    ///
    /// After `NoMemory` no block has changed. `Device` is returned exactly if the count of
    /// `failures()` rose; then each block in range is old or new, and no other has changed. What was
    /// written may have to be synced before it lasts.
    fn write(&mut self, lba: u64, bytes: &[u8]) -> Result<(), StoreFault>
        requires whole { length bytes.now % 512 ≡ 0 }
        requires inside { 512 * lba + length bytes.now ≤ 512 * (disk self.old).count }
        ensures ok { OnOk result (failures self.new ≡ failures self.old
            → disk self.new ≡ disk_written lba bytes.now (disk self.old)) }
        ensures no_memory { IsErrOf result StoreFault.NoMemory
            → (disk self.new ≡ disk self.old) × Within (kept self.old) (kept self.new) }
        ensures each { IsOldOrNew (disk self.old) (disk_written lba bytes.now (disk self.old))
            (disk self.new) }
        // A store that refuses writes is as it was.
        ensures protected { protected ≡ true → disk self.new ≡ disk self.old }
        ensures kept { CrashAddsDisk (disk_written lba bytes.now (disk self.old)) (kept self.old) (kept self.new) }
        ensures lasts { failures self.new ≡ failures self.old
            → LastsOnceSynced (synced self.old) (disk self.old) (kept self.old)
            → LastsOnceSynced (synced self.new) (disk self.new) (kept self.new) }
        ensures tells { StoreTellsFailures (disk self.old).tells (failures self.old)
            (failures self.new)
            (untold self.old) (untold self.new) result };

    /// Makes all that was written last. `Device` comes as it does of a read; then what was written
    /// since the last sync may be lost, and nobody may be told that it was done. No block changes.
    fn sync(&mut self) -> Result<(), StoreFault>
        ensures synced { OnOk result (synced self.new ≡ true) }
        ensures disk { disk self.new ≡ disk self.old }
        ensures kept { Within (kept self.old) (kept self.new) }
        ensures lasts { failures self.new ≡ failures self.old
            → LastsOnceSynced (synced self.old) (disk self.old) (kept self.old)
            → LastsOnceSynced (synced self.new) (disk self.new) (kept self.new) }
        ensures tells { StoreTellsFailures (disk self.old).tells (failures self.old)
            (failures self.new)
            (untold self.old) (untold self.new) result };

    /// A process that ends leaves what its device was given, so that is one of the outcomes.
    ghost stays: { (s : Self) (n : ℕ) → kept s n ((disk s).block n) };

    /// Where no failure was ever counted and no write has to be synced, a crash leaves these blocks
    /// and no others.
    ghost lasts: { (s : Self) → failures s ≡ 0 → LastsOnceSynced (synced s) (disk s) (kept s) };
}
