//! A disk in memory that takes so much memory at most.

ghost use Rattle.std.specs.Prelude.{◌≡◌, refl, ◌+◌, ◌*◌, ◌/◌, ◌%◌, ◌<◌, ◌≤◌, length, true, IsTrue, IsFalse, IfNone, IfSome, OnOk, OnErr, IsErrOf};
ghost use Rattle.scsi_disk.specs.Sparse.{AreZeros};
ghost use Rattle.scsi_disk.specs.Disk.{most_blocks, IsOldOrNew, StoreTellsFailures, disk_written, zeros};
ghost use Rattle.scsi_disk.specs.Lasting.{CrashAddsDisk, Within};
ghost use Rattle.iscsi_event_loop.specs.Limited.{HasNoRoom, IsWithinLimit, limited_disk, left_by};
ghost use Rattle.iscsi_event_loop.specs.inner.Limited.{FitsLimit};

use scsi_disk::{BlockStore, SparseStore, StoreFault};
use std::alloc::Global;
use std::marker::Model;

/// How many blocks are kept together.
pub(crate) const EXTENT_BLOCKS: u64 = 64;

/// How many bytes those have.
pub(crate) const EXTENT_BYTES: u64 = 32_768;

/// A store in memory of 1 to 2^40 blocks. It keeps the blocks that were written, up to a limit in
/// bytes.
///
/// It is a sparse store, whose blocks are kept 64 together: so a block that stands alone counts 32,768
/// bytes. A write for which there is no room is refused as one where a device fails, and changes no
/// block. Blocks that are kept may be written as often as one likes. Where all 64 are 00 they aren't
/// kept, so that a write of 00 alone always has room, and may make some.
#[derive(Drop)]
pub struct LimitedStore {
    store: SparseStore,
    refused: u64,
    // how many times 64 blocks may be kept, if the disk has more
    limit: Option<u64>,
}

impl Model for LimitedStore {
    ghost use Rattle.iscsi_event_loop.specs.Limited.{IsWithinLimit, LimitedDisk, limited_code};

    ghost Value = { LimitedDisk };

    ghost coded = { limited_code };

    ghost view = { λ s. record { store = s.store; refused = s.refused; limit = s.limit } };

    ghost invariant = { λ s. IsWithinLimit (record { store = s.store; refused = s.refused; limit = s.limit }) };
}

impl LimitedStore {
    /// A store of this many blocks of 00, from 1 to 2^40, which keeps at most `memory` bytes of
    /// blocks. It takes no memory.
    pub fn new(alloc: Global, blocks: u64, memory: u64) -> LimitedStore
        requires some { 0 < blocks }
        requires few { blocks ≤ most_blocks }
        ensures disk { limited_disk result ≡ zeros blocks }
        ensures refused { result.refused ≡ 0 }
        // What is kept takes no more bytes than asked for, or else the disk has no more.
        ensures limit { IfSome result.limit (λ most. most * 32768 ≤ memory) }
        ensures whole { IfNone result.limit (blocks * 512 ≤ memory) }
    {
        let most = memory / EXTENT_BYTES;
        let is_short = most < blocks.div_ceil(EXTENT_BLOCKS);
        LimitedStore {
            store: SparseStore::new(alloc, blocks),
            refused: 0,
            limit: if is_short { Some(most) } else { None },
        }
    }

    // Whether there is no room for these bytes.
    fn has_no_room_for(&self, lba: u64, bytes: &[u8]) -> bool
        requires whole { length bytes.now % 512 ≡ 0 }
        requires inside { 512 * lba + length bytes.now ≤ 512 * (limited_disk self.now).count }
        ensures full { IsTrue result → HasNoRoom self.now lba (length bytes.now / 512) }
        ensures blank { IsTrue result → AreZeros bytes.now → ⊥ }
        ensures room { IsFalse result → FitsLimit self.now lba bytes.now }
    {
        match self.limit {
            Some(most) => self.store.extents_with(lba, bytes) > most,
            None => false,
        }
    }
}

impl BlockStore for LimitedStore {
    ghost disk = { limited_disk };

    ghost failures = { λ s. s.refused };

    ghost kept = { left_by };

    ghost stays = { λ s n. refl };

    ghost lasts = { λ s never synced n c left. left };

    fn is_protected(&self) -> bool {
        false
    }

    fn blocks(&self) -> u64 {
        self.store.blocks()
    }

    fn failures(&self) -> u64 {
        self.refused
    }

    fn read(&mut self, lba: u64, out: &mut [u8]) -> Result<(), StoreFault> {
        self.store.read(lba, out)
    }

    fn read_onto(&mut self, lba: u64, blocks: u32, out: &mut Vec<u8>) -> Result<(), StoreFault> {
        self.store.read_onto(lba, blocks, out)
    }

    fn write(&mut self, lba: u64, bytes: &[u8]) -> Result<(), StoreFault>
        requires whole { length bytes.now % 512 ≡ 0 }
        requires inside { 512 * lba + length bytes.now ≤ 512 * (limited_disk self.old).count }
        ensures ok { OnOk result (limited_disk self.new
            ≡ disk_written lba bytes.now (limited_disk self.old)) }
        // A write that is refused leaves every block as it was.
        ensures err { OnErr result (limited_disk self.new ≡ limited_disk self.old) }
        ensures no_memory { IsErrOf result StoreFault.NoMemory → (limited_disk self.new ≡ limited_disk self.old)
            × Within (left_by self.old) (left_by self.new) }
        ensures each { IsOldOrNew (limited_disk self.old)
            (disk_written lba bytes.now (limited_disk self.old))
            (limited_disk self.new) }
        ensures kept { CrashAddsDisk (disk_written lba bytes.now (limited_disk self.old))
            (left_by self.old)
            (left_by self.new) }
        ensures tells { StoreTellsFailures true self.old.refused self.new.refused 0 0 result }
        // No more is kept than the limit allows.
        ensures limit { self.new.limit ≡ self.old.limit }
        ensures within { IsWithinLimit self.new }
        // A write is refused as one where a device fails only if there is no room for it, which bytes that
        // are all 00 always have.
        ensures room { IsErrOf result StoreFault.Device
            → HasNoRoom self.old lba (length bytes.now / 512) }
        ensures blank { IsErrOf result StoreFault.Device → AreZeros bytes.now → ⊥ }
    {
        if self.refused == u64::MAX {
            return Err(StoreFault::NoMemory);
        }
        if self.has_no_room_for(lba, bytes) {
            self.refused += 1;
            return Err(StoreFault::Device);
        }
        self.store.write(lba, bytes)
    }

    fn sync(&mut self) -> Result<(), StoreFault> {
        Ok(())
    }
}
