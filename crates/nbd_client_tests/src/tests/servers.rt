//! A store over a server in this process, whose medium stops or crashes.

use crate::asserts::same;
use nbd_client::{Lost, MediumFault, NbdMedium, Served, Silent};
use scsi_disk::{BlockStore, StoreFault};
use scsi_file::{CrashMemory, FileStore, StopsAt};
use std::alloc::{AllocError, Global};
use std::test::Fail;

// A medium of 8 blocks, each full of a letter from `a` on.
fn letters(alloc: Global) -> Result<CrashMemory, AllocError> {
    let mut bytes = Vec::with_capacity(alloc, 4096)?;
    for letter in b"abcdefgh" {
        bytes.extend_from_slice(&[*letter; 512])?;
    }
    if bytes.len() != 4096 {
        return Err(AllocError);
    }
    Ok(CrashMemory::new(alloc, bytes))
}

// The letters of 8 blocks.
fn spelled(bytes: &[u8]) -> [u8; 8] {
    let mut text = [0; 8];
    for (block, letter) in bytes.chunks(512).zip(text.iter_mut()) {
        if block.iter().all(|byte| *byte == block[0]) {
            *letter = block[0];
        }
    }
    text
}

// Writes a block full of a letter, and syncs it.
fn keep<S: BlockStore>(store: &mut S, lba: u64, letter: u8) -> Result<(), StoreFault> {
    if lba > 7 || store.blocks() < 8 {
        return Err(StoreFault::NoMemory);
    }
    store.write(lba, &[letter; 512])?;
    store.sync()
}

#[test]
fn zeros_are_written_by_their_length(rt: HostRuntime) -> Result<(), Fail> {
    let line = Served::new(rt.alloc(), letters(rt.alloc())?);
    let mut store = FileStore::new(NbdMedium::new(line, Silent).with_write_zeroes())?;
    same(&rt, &keep(&mut store, 2, 0), &DONE, &"zeros");
    same(&rt, &keep(&mut store, 3, b'X'), &DONE, &"a letter");
    same(&rt, &read(&mut store), &Ok(*b"ab\0Xefgh"), &"all blocks");
    Ok(())
}

// The letters of the blocks, by a read.
fn read<S: BlockStore>(store: &mut S) -> Result<[u8; 8], StoreFault> {
    let mut bytes = [0; 4096];
    if store.blocks() < 8 {
        return Err(StoreFault::NoMemory);
    }
    store.read(0, &mut bytes)?;
    Ok(spelled(&bytes))
}

/// After how many calls the server's medium stops, what comes of two writes that are synced and of a
/// read, and what a crash leaves. The crash takes back each block's last write, if it can.
type Row = (
    u64,
    [Result<(), StoreFault>; 2],
    Result<[u8; 8], StoreFault>,
    &'static [u8; 8],
);

const DONE: Result<(), StoreFault> = Ok(());

const FAILED: Result<(), StoreFault> = Err(StoreFault::Device);

const ROWS: &[Row] = &[
    // The store syncs as it begins; then each write and each sync is a call.
    (1, [FAILED, FAILED], Err(StoreFault::Device), b"abcdefgh"),
    (2, [FAILED, FAILED], Err(StoreFault::Device), b"abcdefgh"),
    (3, [Ok(()), FAILED], Err(StoreFault::Device), b"abXdefgh"),
    (4, [Ok(()), FAILED], Err(StoreFault::Device), b"abXdefgh"),
    (5, [Ok(()), Ok(())], Err(StoreFault::Device), b"abXdefYh"),
    (6, [Ok(()), Ok(())], Ok(*b"abXdefYh"), b"abXdefYh"),
];

#[test]
fn what_was_synced_is_there(rt: HostRuntime) -> Result<(), Fail> {
    for (calls, answers, seen, left) in ROWS {
        let medium = StopsAt::new(letters(rt.alloc())?, *calls);
        let line = Served::new(rt.alloc(), medium);
        let mut store = FileStore::new(NbdMedium::new(line, Silent))?;
        let came = [keep(&mut store, 2, b'X'), keep(&mut store, 6, b'Y')];
        same(&rt, &came, answers, calls);
        same(&rt, &read(&mut store), seen, calls);
        let mut medium = store.into_medium().into_line().into_medium().into_medium();
        medium.crash(&[1; 8]);
        same(&rt, &spelled(medium.bytes()), *left, calls);
    }
    Ok(())
}

#[test]
fn a_server_whose_sync_fails_is_gone(rt: HostRuntime) -> Result<(), Fail> {
    let medium = StopsAt::new(letters(rt.alloc())?, 2);
    let line = Served::new(rt.alloc(), medium);
    let mut store = FileStore::new(NbdMedium::new(line, Silent))?;
    same(&rt, &keep(&mut store, 2, b'X'), &FAILED, &"a sync");
    let medium = store.into_medium();
    same(
        &rt,
        &medium.fault(),
        &Some(MediumFault::Lost(Lost::Closed)),
        &"its end",
    );
    Ok(())
}
