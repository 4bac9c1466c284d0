//! What lasts of writes that are cut off, of a medium that lies, and of files.

mod crashes;
mod files;
mod lies;

use scsi_disk::{BlockStore, StoreFault};
use scsi_file::CrashMemory;
use std::alloc::{AllocError, Global};
use std::fmt::Debug;
use std::process::Abort;

/// Asserts that a value is the one that is due, in a row of which this tells.
fn same<T: PartialEq + Debug>(rt: &impl Abort, value: &T, due: &T, row: &impl Debug) {
    assert!(rt; *value == *due, "{row:?}: {value:?} is not {due:?}");
}

/// A medium of 8 blocks, all of which last: the first is full of `a`, the next of `b`, and so on.
fn letters(alloc: Global) -> Result<CrashMemory, AllocError> {
    let mut bytes = Vec::with_capacity(alloc, 4096)?;
    for letter in b"abcdefgh" {
        bytes.extend_from_slice(&[*letter; 512])?;
    }
    if bytes.len() != 4096 {
        return Err(AllocError);
    }
    Ok(CrashMemory::new(alloc, bytes))
}

/// The byte that each of 8 blocks is full of, and 00 where one isn't full of one byte.
fn spelled(bytes: &[u8]) -> [u8; 8] {
    let mut text = [0; 8];
    for (block, letter) in bytes.chunks(512).zip(text.iter_mut()) {
        if block.iter().all(|byte| *byte == block[0]) {
            *letter = block[0];
        }
    }
    text
}

/// Writes blocks, each full of one of these bytes.
fn write<S: BlockStore>(store: &mut S, lba: u64, fills: &[u8]) -> Result<(), StoreFault> {
    let mut bytes = [0; 1024];
    for (i, byte) in bytes.iter_mut().enumerate() {
        if let Some(fill) = fills.get(i / 512) {
            *byte = *fill;
        }
    }
    if lba > 6 || store.blocks() < 8 || fills.len() > 2 {
        return Err(StoreFault::NoMemory);
    }
    store.write(lba, &bytes[..512 * fills.len()])
}

/// The byte that each of the first 8 blocks is full of, by a read.
fn read<S: BlockStore>(store: &mut S) -> Result<[u8; 8], StoreFault> {
    let mut bytes = [0; 4096];
    if store.blocks() < 8 {
        return Err(StoreFault::NoMemory);
    }
    store.read(0, &mut bytes)?;
    Ok(spelled(&bytes))
}
