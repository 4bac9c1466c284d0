//! A store of which one call fails, for trying out what a failure does.

ghost use Rattle.std.specs.Prelude.{◌≡◌, refl, ◌+◌, ◌*◌, ◌/◌, ◌%◌, ◌≤◌, ◌++◌, true, false, length, take, Some, OnOk, OnErr, IsOk, IsErrOf};
ghost use Rattle.scsi_disk.specs.Disk.{AppendsBytes, disk_of, blocks_from, disk_written, IsOldOrNew, StoreTellsFailures};
ghost use Rattle.scsi_disk.specs.FailAt.{failing_disk, failures_in, fails_next_call, later};
ghost use Rattle.scsi_disk.specs.inner.FailAt.{passed};

use crate::memory::MemoryStore;
use crate::store::{BlockStore, StoreFault};
use std::marker::Model;

/// A store that passes its calls on, but for one read or write, which fails with `Device`.
///
/// A read that fails gives nothing. A write that fails changes its first block alone, and nothing
/// where it has none. No call takes memory.
#[derive(Debug, Drop)]
pub struct FailAt {
    store: MemoryStore,
    /// How many calls come before the one that fails, and None once it has failed.
    before: Option<u64>,
}

impl Model for FailAt {
    ghost use Rattle.scsi_disk.specs.FailAt.{FailingStore};

    ghost Value = { FailingStore };

    ghost view = { λ s. record { bytes = s.store; before = s.before } };
}

impl FailAt {
    /// The store, of whose reads and writes number `k`, from 0, fails. Until then it counts no
    /// failure, and from then on one.
    pub fn new(store: MemoryStore, k: u64) -> FailAt
        ensures disk { failing_disk result ≡ disk_of store }
        ensures failures { failures_in result ≡ 0 }
        ensures before { result.before ≡ Some k }
    {
        FailAt {
            store,
            before: Some(k),
        }
    }

    /// Counts a call, and says whether it fails.
    fn fails(&mut self) -> bool
        ensures next { result ≡ fails_next_call self.old.before }
        ensures passed { self.new ≡ passed self.old }
    {
        match self.before {
            None => false,
            Some(0) => {
                self.before = None;
                true
            }
            Some(n) => {
                self.before = Some(n - 1);
                false
            }
        }
    }
}

impl BlockStore for FailAt {
    ghost disk = { failing_disk };

    ghost failures = { failures_in };

    ghost kept = { λ s n c. c ≡ (failing_disk s).block n };

    ghost stays = { λ s n. refl };

    ghost lasts = { λ s never synced n c left. left };

    fn is_protected(&self) -> bool {
        false
    }

    fn blocks(&self) -> u64 {
        self.store.blocks()
    }

    fn failures(&self) -> u64 {
        if self.before.is_none() { 1 } else { 0 }
    }

    fn read(&mut self, lba: u64, out: &mut [u8]) -> Result<(), StoreFault>
        requires whole { length out.old % 512 ≡ 0 }
        requires inside { 512 * lba + length out.old ≤ 512 * (failing_disk self.old).count }
        ensures ok { OnOk result
            (out.new ≡ blocks_from (failing_disk self.old) lba (length out.old / 512)) }
        ensures disk { failing_disk self.new ≡ failing_disk self.old }
        ensures tells { StoreTellsFailures true (failures_in self.old) (failures_in self.new) 0 0
            result }
        // It fails where it is the call that fails, and else works.
        ensures later { self.new.before ≡ later self.old.before }
        ensures fails { fails_next_call self.old.before ≡ true → IsErrOf result StoreFault.Device }
        ensures works { fails_next_call self.old.before ≡ false → IsOk result }
    {
        if self.fails() {
            return Err(StoreFault::Device);
        }
        self.store.read(lba, out)
    }

    fn read_onto(&mut self, lba: u64, blocks: u32, out: &mut Vec<u8>) -> Result<(), StoreFault>
        requires inside { lba + blocks ≤ (failing_disk self.old).count }
        ensures ok { OnOk result
            (out.new.items ≡ out.old.items ++ blocks_from (failing_disk self.old) lba blocks) }
        ensures appends { OnOk result (AppendsBytes (512 * blocks) out.old.items out.new.items) }
        ensures err { OnErr result (out.new.items ≡ out.old.items) }
        ensures disk { failing_disk self.new ≡ failing_disk self.old }
        ensures tells { StoreTellsFailures true (failures_in self.old) (failures_in self.new) 0 0
            result }
        // It fails where it is the call that fails, and else works unless memory runs out.
        ensures later { self.new.before ≡ later self.old.before }
        ensures fails { fails_next_call self.old.before ≡ true → IsErrOf result StoreFault.Device }
        ensures works { fails_next_call self.old.before ≡ false → IsErrOf result StoreFault.Device
            → ⊥ }
    {
        let fails = self.fails();
        if fails {
            return Err(StoreFault::Device);
        }
        self.store.read_onto(lba, blocks, out)
    }

    fn write(&mut self, lba: u64, bytes: &[u8]) -> Result<(), StoreFault>
        requires whole { length bytes.now % 512 ≡ 0 }
        requires inside { 512 * lba + length bytes.now ≤ 512 * (failing_disk self.old).count }
        ensures ok { OnOk result (failing_disk self.new
            ≡ disk_written lba bytes.now (failing_disk self.old)) }
        ensures no_memory { IsErrOf result StoreFault.NoMemory
            → failing_disk self.new ≡ failing_disk self.old }
        ensures device { IsErrOf result StoreFault.Device → IsOldOrNew (failing_disk self.old)
            (disk_written lba bytes.now (failing_disk self.old)) (failing_disk self.new) }
        ensures tells { StoreTellsFailures true (failures_in self.old) (failures_in self.new) 0 0
            result }
        // It fails where it is the call that fails, after its first block, and else works.
        ensures later { self.new.before ≡ later self.old.before }
        ensures fails { fails_next_call self.old.before ≡ true → IsErrOf result StoreFault.Device }
        ensures first { fails_next_call self.old.before ≡ true
            → failing_disk self.new ≡ disk_written lba (take 512 bytes.now)
            (failing_disk self.old) }
        ensures works { fails_next_call self.old.before ≡ false → IsOk result }
    {
        if self.fails() {
            if bytes.len() >= 512 {
                let _ = self.store.write(lba, &bytes[..512]);
            }
            return Err(StoreFault::Device);
        }
        self.store.write(lba, bytes)
    }

    fn sync(&mut self) -> Result<(), StoreFault> {
        Ok(())
    }
}
