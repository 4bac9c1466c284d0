//! A medium in memory that can crash.

ghost use Rattle.std.specs.Prelude.{◌≡◌, ℕ, [], true, refl, length, ◌*◌, ◌+◌, ◌≤◌};
ghost use Rattle.std.proofs.Common.{inl};
ghost use Rattle.scsi_disk.specs.Disk.{cut, disk_of, AreBlocks};
ghost use Rattle.scsi_file.specs.Past.{MayBe};

use crate::medium::Medium;
use scsi_disk::{StoreFault, read_blocks, write_blocks};
use std::alloc::Global;

/// A medium in memory that keeps each content that it had since it was synced, for trying out what
/// a crash leaves.
#[derive(Drop)]
pub struct CrashMemory {
    alloc: Global,
    bytes: Vec<u8>,
    past: Vec<Vec<u8>>,
    ghost whole: { AreBlocks bytes.items },
}

impl CrashMemory {
    ghost use Rattle.scsi_file.specs.CrashMemory.{memory_bytes, past_of};

    /// A medium of these blocks, from 1 to 65,536 of them, all of which last.
    pub fn new(alloc: Global, bytes: Vec<u8>) -> CrashMemory
        requires { AreBlocks bytes.items }
        ensures bytes { memory_bytes result ≡ bytes.items }
        ensures lasts { past_of result ≡ [] }
    {
        CrashMemory {
            alloc,
            bytes,
            past: Vec::new(alloc),
        }
    }

    /// What it keeps, block after block.
    pub fn bytes(&self) -> &[u8]
        ensures { result.now ≡ memory_bytes self.now }
    {
        &self.bytes
    }

    /// Crashes: block n is from now on what it was before the last `back[n]` writes since the last
    /// sync. Where there were fewer, or nothing is said of a block, it stays.
    pub fn crash(&mut self, back: &[usize])
        ensures one { (n : ℕ) → MayBe (memory_bytes self.old) (past_of self.old) n
            (cut 512 (memory_bytes self.new) n) }
        ensures lasts { past_of self.new ≡ [] }
    {
        restore_all(&mut self.bytes, &self.past, back);
        self.past.clear();
    }
}

// Makes each block what it was `n` contents ago, of those that there were.
fn restore_all(bytes: &mut [u8], past: &[Vec<u8>], back: &[usize])
    requires whole { AreBlocks bytes.old }
    ensures size { length bytes.new ≡ length bytes.old }
    ensures each { (m : ℕ) → MayBe bytes.old past.now m (cut 512 bytes.new m) }
{
    for (n, writes) in back.iter().enumerate() {
        if *writes > 0 && *writes <= past.len() {
            restore(bytes, past, n, past.len() - *writes);
        }
    }
}

// Makes block n what it was in one of the contents that there were.
fn restore(bytes: &mut [u8], past: &[Vec<u8>], n: usize, at: usize)
    requires whole { AreBlocks bytes.old }
    requires there { at + 1 ≤ length past.now }
    ensures size { length bytes.new ≡ length bytes.old }
    ensures each { (m : ℕ) → MayBe bytes.old past.now m (cut 512 bytes.new m) }
{
    let before = &past[at];
    if n < bytes.len() / 512 && n < before.len() / 512 {
        write_blocks(bytes, n, &before[512 * n..512 * n + 512]);
    }
}

impl Medium for CrashMemory {
    ghost seen = { λ m. disk_of m.bytes.items };

    ghost kept = { λ m n c. MayBe m.bytes.items m.past.items n c };

    ghost usable = { λ _. true };

    ghost untold = { λ _. 0 };

    ghost stays = { λ m n. inl refl };

    fn blocks(&self) -> u64 {
        (self.bytes.len() / 512) as u64
    }

    fn read_at(&mut self, lba: u64, out: &mut [u8]) -> Result<(), StoreFault> {
        read_blocks(&self.bytes, lba as usize, out);
        Ok(())
    }

    fn write_at(&mut self, lba: u64, bytes: &[u8]) -> Result<(), StoreFault> {
        let Ok(before) = self.bytes.to_vec(self.alloc) else {
            return Err(StoreFault::NoMemory);
        };
        let Ok(()) = self.past.push(before) else {
            return Err(StoreFault::NoMemory);
        };
        write_blocks(&mut self.bytes, lba as usize, bytes);
        Ok(())
    }

    fn sync(&mut self) -> Result<(), StoreFault> {
        self.past.clear();
        Ok(())
    }
}
