//! A store that keeps only what was written. One file, since reads, writes and the room for them go
//! over the same extents.

ghost use Rattle.std.specs.Prelude.{◌≡◌, ◌≢◌, if◌then◌else◌, is_some, refl, ◌+◌, ◌*◌, ◌/◌, ◌%◌, ◌<◌, ◌≤◌, ◌⊎◌, ◌++◌, length, take, ℕ, true, IsTrue, ◌↔◌, IsOk, IfOk, IsSome, OnOk, OnErr, IsErrOf};
ghost use Rattle.std.specs.FinMap.{get};
ghost use Rattle.scsi_disk.specs.Disk.{AppendsBytes, IsOldOrNew, StoreTellsFailures, most_blocks, zeros, blocks_from, disk_written, cut, overlaid};
ghost use Rattle.scsi_disk.specs.Lasting.{CrashAddsDisk, Within};
ghost use Rattle.scsi_disk.specs.Sparse.{asked_extents, extents_disk, kept_extents, AreZeros, HasBlocks};
ghost use Rattle.scsi_disk.specs.inner.Sparse.{IsBlank};

use crate::memory::{append_blocks, read_blocks, write_blocks};
use crate::store::{BlockStore, StoreFault};
use std::alloc::{AllocError, Global};
use std::collections::BTreeMap;
use std::marker::Model;

/// How many blocks an extent has.
const EXTENT_BLOCKS: u64 = 64;

/// The bytes of 64 blocks.
#[derive(Drop)]
struct Extent {
    bytes: Vec<u8>,
}

impl Model for Extent {
    ghost use Rattle.std.specs.Prelude.{List, ℕ, ◌≡◌, length};

    ghost Value = { List ℕ };

    ghost view = { λ e. e.bytes.items };

    ghost invariant = { λ e. length e.bytes.items ≡ 32768 };
}

impl Extent {
    /// `n` blocks of 00, of which an extent has 64.
    fn blank(alloc: Global, blocks: usize) -> Result<Extent, AllocError>
        requires { blocks ≡ 64 }
        ensures blank { IfOk result IsBlank }
        ensures size { IfOk result (λ e. length e ≡ 32768) }
    {
        let bytes = vec![in alloc; 0u8; 512 * blocks]?;
        Ok(Extent { bytes })
    }

    /// Writes whole blocks.
    fn put(&mut self, n: usize, bytes: &[u8])
        requires whole { length bytes.now % 512 ≡ 0 }
        requires inside { n + length bytes.now / 512 ≤ 64 }
        ensures blocks { cut 512 self.new ≡ overlaid 512 n bytes.now (cut 512 self.old) }
        ensures size { length self.new ≡ length self.old }
    {
        write_blocks(&mut self.bytes, n, bytes);
    }

    /// Whether all its bytes are 00.
    fn is_blank(&self) -> bool
        ensures { IsTrue result → IsBlank self.now }
    {
        are_zeros(&self.bytes)
    }
}

/// The most blocks that a disk may have (own rule).
pub const MOST_BLOCKS: u64 = 1_099_511_627_776;

/// A store of 1 to 2^40 blocks. A block that was never written is 00.
///
/// It keeps extents of 64 blocks in an ordered map. A transfer looks up each extent that it reaches
/// into once. A read takes no memory. A write first goes over its extents, from the first of them.
/// If not all are there, the write takes memory for the others, of 00, before it changes a byte. So
/// after `NoMemory` no block has changed. The device does not fail.
///
/// A write of 00 alone takes no memory. A write that leaves an extent all 00 gives its memory back.
/// To see that, the bytes of the write in this extent are looked at first, up to one that isn't 00.
/// Only if there is none, the extent is.
#[derive(Drop)]
pub struct SparseStore {
    blocks: u64,
    alloc: Global,
    extents: BTreeMap<u64, Extent>,
}

impl Model for SparseStore {
    ghost use Rattle.std.specs.Prelude.{◌<◌};
    ghost use Rattle.std.specs.FinMap as map;
    ghost use Rattle.scsi_disk.specs.Sparse.{Extents, extents_code};
    ghost use Rattle.scsi_disk.specs.inner.Sparse.{AreExtents};

    ghost Value = { Extents };

    ghost coded = { extents_code };

    ghost view = { λ s. record { count = s.blocks; extents = map.from_entries s.extents.entries } };

    ghost invariant = { λ s. AreExtents s.blocks (map.from_entries s.extents.entries) };
}

impl SparseStore {
    /// A store of `n` blocks of 00, from 1 to 2^40. It takes no memory.
    pub fn new(alloc: Global, blocks: u64) -> SparseStore
        requires some { 0 < blocks }
        requires few { blocks ≤ most_blocks }
        ensures disk { extents_disk result ≡ zeros blocks }
        ensures none { kept_extents result ≡ 0 }
    {
        SparseStore {
            blocks,
            alloc,
            extents: BTreeMap::new(alloc),
        }
    }

    /// How many extents it keeps at most while these bytes are written from block `lba` on: those
    /// that are there, and those that the write asks for. A write of 00 alone asks for none.
    pub fn extents_with(&self, lba: u64, bytes: &[u8]) -> u64
        requires whole { length bytes.now % 512 ≡ 0 }
        requires inside { 512 * lba + length bytes.now ≤ 512 * (extents_disk self.now).count }
        ensures blank { AreZeros bytes.now → result ≡ kept_extents self.now }
        ensures asked { AreZeros bytes.now ⊎ (result
            ≡ kept_extents self.now + asked_extents self.now lba (length bytes.now / 512)) }
    {
        prove!(lba <= self.blocks);
        let kept = self.extents.len() as u64;
        if are_zeros(bytes) {
            return kept;
        }
        kept + self.missing(lba, bytes.len() as u64 / 512)
    }

    /// How many extents of these blocks aren't there.
    fn missing(&self, first: u64, count: u64) -> u64
        requires { first + count ≤ self.now.count }
        ensures asked { result ≡ asked_extents self.now first count }
        ensures few { result ≤ count }
    {
        prove!(first <= self.blocks);
        if count == 0 {
            return 0;
        }
        let mut missing = 0;
        for extent in first / EXTENT_BLOCKS..(first + count - 1) / EXTENT_BLOCKS + 1 {
            if !self.extents.contains_key(&extent) {
                missing += 1;
            }
        }
        missing
    }

    /// Reads blocks that lie in one extent.
    fn read_run(&self, n: u64, out: &mut [u8])
        requires whole { length out.old % 512 ≡ 0 }
        requires one { n % 64 + length out.old / 512 ≤ 64 }
        requires inside { n + length out.old / 512 ≤ self.now.count }
        ensures { out.new ≡ blocks_from (extents_disk self.now) n (length out.old / 512) }
    {
        match self.extents.get(&(n / EXTENT_BLOCKS)) {
            Some(extent) => read_blocks(&extent.bytes, (n % EXTENT_BLOCKS) as usize, out),
            None => out.fill(0),
        }
    }

    /// Appends blocks that lie in one extent, or leaves `out` as it was.
    fn append_run(&self, n: u64, blocks: usize, out: &mut Vec<u8>) -> Result<(), AllocError>
        requires one { n % 64 + blocks ≤ 64 }
        requires inside { n + blocks ≤ self.now.count }
        ensures ok { OnOk result
            (out.new.items ≡ out.old.items ++ blocks_from (extents_disk self.now) n blocks) }
        ensures err { OnErr result (out.new.items ≡ out.old.items) }
    {
        match self.extents.get(&(n / EXTENT_BLOCKS)) {
            Some(extent) => {
                append_blocks(&extent.bytes, (n % EXTENT_BLOCKS) as usize, blocks, out)
            }
            None => out.resize(out.len() + 512 * blocks, 0),
        }
    }

    /// Appends blocks, of which a front may stand where memory ran out.
    fn append_all(&self, first: u64, count: u32, out: &mut Vec<u8>) -> Result<(), AllocError>
        requires { first + count ≤ self.now.count }
        ensures ok { OnOk result
            (out.new.items ≡ out.old.items ++ blocks_from (extents_disk self.now) first count) }
        ensures front { take (length out.old.items) out.new.items ≡ out.old.items }
    {
        prove!(first <= self.blocks);
        let blocks = count as usize;
        out.reserve(512 * blocks)?;
        let mut done = 0;
        while done < blocks {
            let n = first + done as u64;
            let run = run_length(n, blocks - done);
            self.append_run(n, run, out)?;
            done += run;
        }
        Ok(())
    }

    /// Makes room for an extent. Nothing is seen of it.
    fn reserve(&mut self, extent: u64) -> Result<(), AllocError>
        ensures disk { extents_disk self.new ≡ extents_disk self.old }
        ensures there { OnOk result (IsSome (get self.new.extents extent)) }
        ensures room { IsSome (get self.old.extents extent) → IsOk result }
        ensures kept { (k : ℕ) → IsSome (get self.old.extents k)
            → IsSome (get self.new.extents k) }
        ensures others { (k : ℕ) → k ≢ extent → get self.new.extents k ≡ get self.old.extents k }
        ensures grows { kept_extents self.new ≤ kept_extents self.old
            + (if is_some (get self.old.extents extent) then 0 else 1) }
    {
        if !self.extents.contains_key(&extent) {
            let blank = Extent::blank(self.alloc, 64)?;
            self.extents.insert(extent, blank)?;
        }
        Ok(())
    }

    /// Removes the extent of a write if it is all 00. It isn't looked at if one of the bytes that
    /// were written isn't. Nothing is seen of it.
    fn give_back(&mut self, extent: u64, bytes: &[u8])
        ensures disk { extents_disk self.new ≡ extents_disk self.old }
        ensures kept { (k : ℕ) → IsSome (get self.old.extents k)
            → (k ≡ extent) ⊎ IsSome (get self.new.extents k) }
        ensures shrinks { kept_extents self.new ≤ kept_extents self.old }
    {
        if !are_zeros(bytes) {
            return;
        }
        let Some(found) = self.extents.get(&extent) else {
            return;
        };
        if found.is_blank() {
            self.extents.remove(&extent);
        }
    }

    /// Writes blocks that lie in one extent. It is there, or all the bytes are 00.
    fn write_run(&mut self, n: u64, bytes: &[u8])
        requires whole { length bytes.now % 512 ≡ 0 }
        requires one { n % 64 + length bytes.now / 512 ≤ 64 }
        requires inside { n + length bytes.now / 512 ≤ self.old.count }
        requires there { AreZeros bytes.now ⊎ IsSome (get self.old.extents (n / 64)) }
        ensures disk { extents_disk self.new ≡ disk_written n bytes.now (extents_disk self.old) }
        ensures kept { (k : ℕ) → IsSome (get self.old.extents k)
            → IsSome (get self.new.extents k) }
        ensures same { kept_extents self.new ≡ kept_extents self.old }
    {
        if let Some(extent) = self.extents.get_mut(&(n / EXTENT_BLOCKS)) {
            extent.put((n % EXTENT_BLOCKS) as usize, bytes);
        }
    }

    /// Whether the extents of some blocks are all there. It looks up the first, and goes on from
    /// it.
    fn has_all(&self, first: u64, count: u64) -> bool
        requires { first + count ≤ self.now.count }
        ensures there { result ≡ true → HasBlocks self.now.extents first count }
    {
        prove!(first <= self.blocks);
        if count == 0 {
            return true;
        }
        let mut next = first / EXTENT_BLOCKS;
        let end = (first + count - 1) / EXTENT_BLOCKS + 1;
        for (extent, _) in self.extents.range(next..end) {
            if *extent == next && next < end {
                next += 1;
            }
        }
        next == end
    }

    /// Makes room for the extents of some blocks. Nothing is seen of it.
    fn reserve_all(&mut self, first: u64, count: u64) -> Result<(), AllocError>
        requires { first + count ≤ self.old.count }
        ensures disk { extents_disk self.new ≡ extents_disk self.old }
        ensures there { OnOk result (HasBlocks self.new.extents first count) }
        ensures room { HasBlocks self.old.extents first count → IsOk result }
        ensures grows { kept_extents self.new
            ≤ kept_extents self.old + asked_extents self.old first count }
    {
        prove!(first <= self.blocks);
        if count == 0 {
            return Ok(());
        }
        for extent in first / EXTENT_BLOCKS..(first + count - 1) / EXTENT_BLOCKS + 1 {
            self.reserve(extent)?;
        }
        Ok(())
    }

    /// Writes whole blocks, and gives back each extent that is all 00 then. Their extents are there,
    /// or all the bytes are 00.
    fn write_all(&mut self, first: u64, bytes: &[u8])
        requires whole { length bytes.now % 512 ≡ 0 }
        requires inside { first + length bytes.now / 512 ≤ self.old.count }
        requires there { AreZeros bytes.now
            ⊎ HasBlocks self.old.extents first (length bytes.now / 512) }
        ensures disk { extents_disk self.new ≡ disk_written first bytes.now (extents_disk self.old) }
        ensures shrinks { kept_extents self.new ≤ kept_extents self.old }
    {
        prove!(first <= self.blocks);
        let blocks = bytes.len() / 512;
        let mut done = 0;
        while done < blocks {
            let n = first + done as u64;
            let end = done + run_length(n, blocks - done);
            let run = &bytes[512 * done..512 * end];
            self.write_run(n, run);
            self.give_back(n / EXTENT_BLOCKS, run);
            done = end;
        }
    }
}

impl BlockStore for SparseStore {
    ghost disk = { extents_disk };

    ghost failures = { λ _. 0 };

    ghost kept = { λ s n c. c ≡ (extents_disk s).block n };

    ghost stays = { λ s n. refl };

    ghost lasts = { λ s never synced n c left. left };

    fn is_protected(&self) -> bool {
        false
    }

    fn blocks(&self) -> u64 {
        self.blocks
    }

    fn failures(&self) -> u64 {
        0
    }

    fn read(&mut self, lba: u64, out: &mut [u8]) -> Result<(), StoreFault>
        requires whole { length out.old % 512 ≡ 0 }
        requires inside { 512 * lba + length out.old ≤ 512 * (extents_disk self.old).count }
        ensures works { IsOk result }
        ensures read { out.new ≡ blocks_from (extents_disk self.old) lba (length out.old / 512) }
        ensures disk { extents_disk self.new ≡ extents_disk self.old }
        ensures kept { Within (λ n c. c ≡ (extents_disk self.old).block n)
            (λ n c. c ≡ (extents_disk self.new).block n) }
        ensures store { self.new ≡ self.old }
    {
        prove!(lba <= self.blocks);
        let blocks = out.len() / 512;
        let mut done = 0;
        while done < blocks {
            let n = lba + done as u64;
            let end = done + run_length(n, blocks - done);
            self.read_run(n, &mut out[512 * done..512 * end]);
            done = end;
        }
        Ok(())
    }

    fn read_onto(&mut self, lba: u64, blocks: u32, out: &mut Vec<u8>) -> Result<(), StoreFault>
        requires inside { lba + blocks ≤ (extents_disk self.old).count }
        ensures ok { OnOk result (out.new.items
            ≡ out.old.items ++ blocks_from (extents_disk self.old) lba blocks) }
        ensures appends { OnOk result (AppendsBytes (512 * blocks) out.old.items out.new.items) }
        ensures err { OnErr result (out.new.items ≡ out.old.items) }
        ensures disk { extents_disk self.new ≡ extents_disk self.old }
        ensures kept { Within (λ n c. c ≡ (extents_disk self.old).block n)
            (λ n c. c ≡ (extents_disk self.new).block n) }
        ensures tells { StoreTellsFailures true 0 0 0 0 result }
        ensures store { self.new ≡ self.old }
    {
        prove!(lba <= self.blocks);
        let start = out.len();
        if self.append_all(lba, blocks, out).is_err() {
            out.truncate(start);
            return Err(StoreFault::NoMemory);
        }
        Ok(())
    }

    fn write(&mut self, lba: u64, bytes: &[u8]) -> Result<(), StoreFault>
        requires whole { length bytes.now % 512 ≡ 0 }
        requires inside { 512 * lba + length bytes.now ≤ 512 * (extents_disk self.old).count }
        ensures ok { OnOk result (extents_disk self.new
            ≡ disk_written lba bytes.now (extents_disk self.old)) }
        ensures no_memory { IsErrOf result StoreFault.NoMemory
            → (extents_disk self.new ≡ extents_disk self.old)
            × Within (λ n c. c ≡ (extents_disk self.old).block n)
            (λ n c. c ≡ (extents_disk self.new).block n) }
        ensures each { IsOldOrNew (extents_disk self.old)
            (disk_written lba bytes.now (extents_disk self.old))
            (extents_disk self.new) }
        ensures kept { CrashAddsDisk (disk_written lba bytes.now (extents_disk self.old))
            (λ n c. c ≡ (extents_disk self.old).block n)
            (λ n c. c ≡ (extents_disk self.new).block n) }
        ensures tells { StoreTellsFailures true 0 0 0 0 result }
        // If all extents are there, no memory is needed.
        ensures room { HasBlocks self.old.extents lba (length bytes.now / 512) → IsOk result }
        // If all bytes are 00, none is needed either.
        ensures blank { AreZeros bytes.now → IsOk result }
        // It keeps no more extents than `extents_with` says.
        ensures grows { kept_extents self.new
            ≤ kept_extents self.old + asked_extents self.old lba (length bytes.now / 512) }
        ensures shrinks { AreZeros bytes.now → kept_extents self.new ≤ kept_extents self.old }
    {
        prove!(lba <= self.blocks);
        let blocks = bytes.len() as u64 / 512;
        if !are_zeros(bytes) && !self.has_all(lba, blocks) {
            self.reserve_all(lba, blocks)?;
        }
        self.write_all(lba, bytes);
        Ok(())
    }

    fn sync(&mut self) -> Result<(), StoreFault> {
        Ok(())
    }
}

/// Whether bytes are all 00. None behind the first that isn't is looked at.
fn are_zeros(bytes: &[u8]) -> bool
    ensures { IsTrue result ↔ AreZeros bytes.now }
{
    bytes.iter().all(|byte| *byte == 0)
}

/// How many of these blocks, from block `n` on, lie in the extent of the first.
fn run_length(n: u64, blocks: usize) -> usize
    requires { 0 < blocks }
    ensures some { 0 < result }
    ensures few { result ≤ blocks }
    ensures one { n % 64 + result ≤ 64 }
    ensures end { (result ≡ blocks) ⊎ (n % 64 + result ≡ 64) }
{
    ((EXTENT_BLOCKS - n % EXTENT_BLOCKS) as usize).min(blocks)
}
