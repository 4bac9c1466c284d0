//! A store that can't be written.

ghost use Rattle.std.specs.Prelude.{◌≡◌, true};

use crate::store::{BlockStore, StoreFault};

/// A store of which no block changes: a write never reaches the store below.
#[derive(Drop)]
pub struct ReadOnly<S: BlockStore> {
    store: S,
}

impl<S: BlockStore + Drop> ReadOnly<S> {
    ghost use Rattle.scsi_disk.specs.ReadOnly.{store_in};

    /// The store, which is not written any more.
    pub fn new(store: S) -> ReadOnly<S>
        ensures { store_in result ≡ store }
    {
        ReadOnly { store }
    }
}

impl<S: BlockStore> BlockStore for ReadOnly<S> {
    ghost disk = { λ s. S.disk s.store };

    ghost failures = { λ s. S.failures s.store };

    ghost untold = { λ s. S.untold s.store };

    ghost kept = { λ s. S.kept s.store };

    ghost synced = { λ s. S.synced s.store };

    ghost protected = { true };

    ghost stays = { λ s n. S.stays s.store n };

    ghost lasts = { λ s. S.lasts s.store };

    fn is_protected(&self) -> bool {
        true
    }

    fn blocks(&self) -> u64 {
        self.store.blocks()
    }

    fn failures(&self) -> u64 {
        self.store.failures()
    }

    fn read(&mut self, lba: u64, out: &mut [u8]) -> Result<(), StoreFault> {
        self.store.read(lba, out)
    }

    fn read_onto(&mut self, lba: u64, blocks: u32, out: &mut Vec<u8>) -> Result<(), StoreFault> {
        self.store.read_onto(lba, blocks, out)
    }

    /// Is refused. No caller of this crate asks for it.
    fn write(&mut self, _lba: u64, _bytes: &[u8]) -> Result<(), StoreFault> {
        Err(StoreFault::NoMemory)
    }

    fn sync(&mut self) -> Result<(), StoreFault> {
        self.store.sync()
    }
}
