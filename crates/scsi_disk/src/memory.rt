//! A store that keeps each block in memory.

ghost use Rattle.std.specs.Prelude.{◌≡◌, refl, ◌+◌, ◌*◌, ◌/◌, ◌%◌, ◌<◌, ◌≤◌, ◌++◌, length, IsOk, IfOk, OnOk, OnErr};
ghost use Rattle.scsi_disk.specs.Disk.{joined_blocks, overlaid, cut, zeros, disk_of, blocks_from, disk_written};

use crate::store::{BlockStore, StoreFault};
use std::alloc::{AllocError, Global};
use std::marker::Model;

/// Reads whole blocks of some bytes, from block `lba` on.
pub fn read_blocks(bytes: &[u8], lba: usize, out: &mut [u8])
    requires whole { length out.old % 512 ≡ 0 }
    requires inside { 512 * lba + length out.old ≤ length bytes.now }
    ensures { out.new ≡ joined_blocks (cut 512 bytes.now) lba (length out.old / 512) }
{
    let first = 512 * lba;
    out.copy_from_slice(&bytes[first..first + out.len()]);
}

/// Appends `n` blocks of some bytes, from block `lba` on, or leaves `out` as it was.
pub(crate) fn append_blocks(
    bytes: &[u8],
    lba: usize,
    blocks: usize,
    out: &mut Vec<u8>,
) -> Result<(), AllocError>
    requires { 512 * lba + 512 * blocks ≤ length bytes.now }
    ensures ok { OnOk result
        (out.new.items ≡ out.old.items ++ joined_blocks (cut 512 bytes.now) lba blocks) }
    ensures err { OnErr result (out.new.items ≡ out.old.items) }
{
    let first = 512 * lba;
    out.extend_from_slice(&bytes[first..first + 512 * blocks])
}

/// Writes whole blocks of some bytes, from block `lba` on.
pub fn write_blocks(bytes: &mut [u8], lba: usize, contents: &[u8])
    requires whole { length contents.now % 512 ≡ 0 }
    requires inside { 512 * lba + length contents.now ≤ length bytes.old }
    ensures { cut 512 bytes.new ≡ overlaid 512 lba contents.now (cut 512 bytes.old) }
{
    let first = 512 * lba;
    bytes[first..first + contents.len()].copy_from_slice(contents);
}

/// A store of 1 to 65,536 blocks in memory. Its reads and writes take no memory, and do not fail.
#[derive(Debug, Drop)]
pub struct MemoryStore {
    bytes: Vec<u8>,
}

impl Model for MemoryStore {
    ghost use Rattle.std.specs.Prelude.{List, ℕ, ◌≡◌, ◌*◌, ◌%◌, ◌<◌, ◌≤◌, length};
    ghost use Rattle.scsi_disk.specs.Disk.{AreBlocks};

    ghost Value = { List ℕ };

    ghost view = { λ s. s.bytes.items };

    ghost invariant = { λ s. AreBlocks s.bytes.items };
}

impl MemoryStore {
    /// A store of `n` blocks of 00, from 1 to 65,536.
    pub fn new(alloc: Global, blocks: u64) -> Result<MemoryStore, AllocError>
        requires some { 0 < blocks }
        requires few { blocks ≤ 65536 }
        ensures { IfOk result (λ store. disk_of store ≡ zeros blocks) }
    {
        let bytes = vec![in alloc; 0u8; 512 * blocks as usize]?;
        Ok(MemoryStore { bytes })
    }
}

impl BlockStore for MemoryStore {
    ghost disk = { disk_of };

    ghost failures = { λ _. 0 };

    ghost kept = { λ s n c. c ≡ (disk_of s).block n };

    ghost stays = { λ s n. refl };

    ghost lasts = { λ s never synced n c left. left };

    fn is_protected(&self) -> bool {
        false
    }

    fn blocks(&self) -> u64 {
        (self.bytes.len() / 512) as u64
    }

    fn failures(&self) -> u64 {
        0
    }

    fn read(&mut self, lba: u64, out: &mut [u8]) -> Result<(), StoreFault>
        requires whole { length out.old % 512 ≡ 0 }
        requires inside { 512 * lba + length out.old ≤ 512 * (disk_of self.old).count }
        ensures works { IsOk result }
        ensures read { out.new ≡ blocks_from (disk_of self.old) lba (length out.old / 512) }
        ensures disk { disk_of self.new ≡ disk_of self.old }
    {
        read_blocks(&self.bytes, lba as usize, out);
        Ok(())
    }

    fn read_onto(&mut self, lba: u64, blocks: u32, out: &mut Vec<u8>) -> Result<(), StoreFault> {
        append_blocks(&self.bytes, lba as usize, blocks as usize, out)?;
        Ok(())
    }

    fn write(&mut self, lba: u64, bytes: &[u8]) -> Result<(), StoreFault>
        requires whole { length bytes.now % 512 ≡ 0 }
        requires inside { 512 * lba + length bytes.now ≤ 512 * (disk_of self.old).count }
        ensures works { IsOk result }
        ensures disk { disk_of self.new ≡ disk_written lba bytes.now (disk_of self.old) }
    {
        write_blocks(&mut self.bytes, lba as usize, bytes);
        Ok(())
    }

    fn sync(&mut self) -> Result<(), StoreFault> {
        Ok(())
    }
}
