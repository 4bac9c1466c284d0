//! A medium that once does something else than it says: the store above it tells no failure, and
//! what it answered well may not be there.

ghost use Rattle.std.specs.Prelude.{◌≡◌, ◌≤◌, ◌<◌, true, false, refl};
ghost use Rattle.std.proofs.Common.{inl};
ghost use Rattle.scsi_disk.specs.Disk.{disk_of};
ghost use Rattle.scsi_file.specs.CrashMemory.{memory_bytes, past_of};
ghost use Rattle.scsi_file.specs.Hiding.{hiding};
ghost use Rattle.scsi_file.specs.Past.{MayBe};

use super::{letters, read, same, spelled, write};
use scsi_disk::{BlockStore, StoreFault};
use scsi_file::{CrashMemory, FileStore, Medium};
use std::alloc::{AllocError, Global};
use std::test::Fail;

/// A medium in memory that answers one of its calls well and does not make it.
#[derive(Drop)]
struct LiesOnce {
    medium: CrashMemory,
    /// How many calls come before the one that is not made, and None once it has come.
    before: Option<u64>,
    /// How often a call was not made.
    lies: u64,
}

impl LiesOnce {
    /// Counts a call, and answers whether it is not made.
    fn lies(&mut self) -> bool
        ensures medium { self.new.medium ≡ self.old.medium }
        ensures rises { self.old.lies ≤ self.new.lies }
        ensures lies { result ≡ true → self.old.lies < self.new.lies }
        ensures tells { result ≡ false → self.new.lies ≡ self.old.lies }
    {
        match self.before {
            Some(0) if self.lies < u64::MAX => {
                self.before = None;
                self.lies += 1;
                true
            }
            Some(n) if n > 0 => {
                self.before = Some(n - 1);
                false
            }
            _ => false,
        }
    }
}

impl Medium for LiesOnce {
    ghost seen = { λ s. hiding (disk_of (memory_bytes s.medium)) };

    ghost kept = { λ s n c. MayBe (memory_bytes s.medium) (past_of s.medium) n c };

    ghost usable = { λ _. true };

    ghost untold = { λ s. s.lies };

    ghost stays = { λ s n. inl refl };

    fn blocks(&self) -> u64 {
        self.medium.blocks()
    }

    fn read_at(&mut self, lba: u64, out: &mut [u8]) -> Result<(), StoreFault> {
        if self.lies() {
            return Ok(());
        }
        self.medium.read_at(lba, out)
    }

    fn write_at(&mut self, lba: u64, bytes: &[u8]) -> Result<(), StoreFault> {
        if self.lies() {
            return Ok(());
        }
        self.medium.write_at(lba, bytes)
    }

    fn sync(&mut self) -> Result<(), StoreFault> {
        if self.lies() {
            return Ok(());
        }
        self.medium.sync()
    }
}

/// What comes of a write of `XY` to blocks 2 and 3 and of a read, if one call of the medium is not
/// made.
///
/// A store syncs its medium as the store begins, and is asked for a write, a sync and the read.
/// Each is answered well.
struct Row {
    lie: u64,
    /// What the read gives.
    read: &'static [u8; 8],
    /// What a crash leaves that takes back the last write, if it can.
    crashed: &'static [u8; 8],
}

const ROWS: &[Row] = &[
    Row {
        lie: 0,
        read: b"abXYefgh",
        crashed: b"abXYefgh",
    },
    Row {
        lie: 1,
        read: b"abcdefgh",
        crashed: b"abcdefgh",
    },
    Row {
        lie: 2,
        read: b"abXYefgh",
        crashed: b"abcdefgh",
    },
    Row {
        lie: 3,
        read: &[0; 8],
        crashed: b"abXYefgh",
    },
    Row {
        lie: 4,
        read: b"abXYefgh",
        crashed: b"abXYefgh",
    },
];

/// What the read gives, how many failures were told, and what a crash leaves.
fn told(alloc: Global, lie: u64) -> Result<Option<([u8; 8], u64, [u8; 8])>, AllocError> {
    let medium = LiesOnce {
        medium: letters(alloc)?,
        before: Some(lie),
        lies: 0,
    };
    let Ok(mut store) = FileStore::new(medium) else {
        return Ok(None);
    };
    let Ok(()) = write(&mut store, 2, b"XY") else {
        return Ok(None);
    };
    let Ok(()) = store.sync() else {
        return Ok(None);
    };
    let Ok(given) = read(&mut store) else {
        return Ok(None);
    };
    let failures = store.failures();
    let mut medium = store.into_medium().medium;
    medium.crash(&[0, 0, 1, 1]);
    Ok(Some((given, failures, spelled(medium.bytes()))))
}

#[test]
fn a_lie_is_not_told(rt: HostRuntime) -> Result<(), Fail> {
    for row in ROWS {
        let due = Some((*row.read, 0, *row.crashed));
        same(&rt, &told(rt.alloc(), row.lie)?, &due, &row.lie);
    }
    Ok(())
}
