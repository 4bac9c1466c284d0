//! What blocks are kept on, and what it keeps where all stops.

ghost use Rattle.std.specs.Prelude.{◌≡◌, ℕ, List, ◌+◌, ◌*◌, ◌/◌, ◌%◌, ◌≤◌, Bool, IsTrue, length, OnOk, IsErrOf};
ghost use Rattle.scsi_disk.specs.Disk.{Disk, IsDisk, blocks_from, disk_written, IsOldOrNew};
ghost use Rattle.scsi_disk.specs.Lasting.{CrashAddsDisk, SettledDisk, Within};
ghost use Rattle.scsi_file.specs.Hiding.{HidesFailures};

use scsi_disk::StoreFault;

/// What keeps blocks of 512 bytes, and keeps for good what was there when it was synced.
///
/// Contracts see what its reads give, and what each block may be after a crash at this moment,
/// block by block: each by itself, whole old or whole new.
pub trait Medium {
    /// What a read gives.
    ghost seen: { Self → Disk };

    /// What each block may be after a crash at this moment.
    ghost kept: { Self → ℕ → List ℕ → Type 0 };

    /// No sync has failed. After one has, what was written may be lost with no further error.
    ghost usable: { Self → Bool };

    /// How often it did something else than it said: a wrong answer, a write that is not there, or
    /// a sync that was none.
    ghost untold: { Self → ℕ };

    /// How many blocks there are: at least 1, and always as many.
    fn blocks(&self) -> u64
        ensures count { result ≡ (seen self.now).count }
        ensures disk { IsDisk (seen self.now) };

    /// Reads the whole blocks that `out` has room for, from block `lba` on. They lie inside the
    /// medium. No block changes.
    fn read_at(&mut self, lba: u64, out: &mut [u8]) -> Result<(), StoreFault>
        requires usable { IsTrue (usable self.old) }
        requires whole { length out.old % 512 ≡ 0 }
        requires inside { 512 * lba + length out.old ≤ 512 * (seen self.old).count }
        ensures ok { OnOk result (untold self.new ≡ untold self.old
            → out.new ≡ blocks_from (seen self.old) lba (length out.old / 512)) }
        ensures seen { seen self.new ≡ seen self.old }
        ensures kept { Within (kept self.old) (kept self.new) }
        ensures usable { IsTrue (usable self.new) }
        ensures untold { HidesFailures (seen self.old).tells (untold self.old) (untold self.new)
            result };

    /// Writes whole blocks, from block `lba` on. They lie inside the medium.
    ///
    /// After `NoMemory` no block has changed. After `Device` each block in range is old or new, and
    /// no other has changed.
    fn write_at(&mut self, lba: u64, bytes: &[u8]) -> Result<(), StoreFault>
        requires usable { IsTrue (usable self.old) }
        requires whole { length bytes.now % 512 ≡ 0 }
        requires inside { 512 * lba + length bytes.now ≤ 512 * (seen self.old).count }
        ensures ok { OnOk result (untold self.new ≡ untold self.old
            → seen self.new ≡ disk_written lba bytes.now (seen self.old)) }
        ensures no_memory { IsErrOf result StoreFault.NoMemory
            → (seen self.new ≡ seen self.old) × Within (kept self.old) (kept self.new) }
        ensures each { IsOldOrNew (seen self.old) (disk_written lba bytes.now (seen self.old))
            (seen self.new) }
        ensures kept { CrashAddsDisk (disk_written lba bytes.now (seen self.old)) (kept self.old) (kept self.new) }
        ensures usable { IsTrue (usable self.new) }
        ensures untold { HidesFailures (seen self.old).tells (untold self.old) (untold self.new)
            result };

    /// Makes all that a read gives last. Where it fails, the medium can't be used any more.
    fn sync(&mut self) -> Result<(), StoreFault>
        requires { IsTrue (usable self.old) }
        ensures usable { OnOk result (IsTrue (usable self.new)) }
        ensures ok { OnOk result (untold self.new ≡ untold self.old
            → SettledDisk (seen self.new) (kept self.new)) }
        ensures seen { seen self.new ≡ seen self.old }
        ensures kept { Within (kept self.old) (kept self.new) }
        ensures untold { HidesFailures (seen self.old).tells (untold self.old) (untold self.new)
            result };

    /// A process that ends leaves what its medium was given, so that is one of the outcomes.
    ghost stays: { (s : Self) (n : ℕ) → kept s n ((seen s).block n) };
}
