//! Reads and writes over servers in this process that take short requests, or wide ones.

use crate::asserts::same;
use nbd_client::{NbdMedium, RequestSizes, Served, Silent};
use scsi_disk::StoreFault;
use scsi_file::{CrashMemory, Medium};
use std::alloc::{AllocError, Global};
use std::test::Fail;

/// A medium over a server in this process.
type InProcess = NbdMedium<Served<CrashMemory>, Silent>;

/// The letters of which each block is full.
const LETTERS: &[u8; 24] = b"abcdefghijklmnopqrstuvwx";

// A medium of 24 blocks, each full of its letter.
fn letters(alloc: Global) -> Result<CrashMemory, AllocError> {
    let mut bytes = Vec::with_capacity(alloc, 12_288)?;
    for letter in LETTERS {
        bytes.extend_from_slice(&[*letter; 512])?;
    }
    if bytes.len() != 12_288 {
        return Err(AllocError);
    }
    Ok(CrashMemory::new(alloc, bytes))
}

// The letters of blocks; `.` of one that has several.
fn spelled(bytes: &[u8]) -> [u8; 24] {
    let mut text = [b' '; 24];
    for (block, letter) in bytes.chunks(512).zip(text.iter_mut()) {
        let all = block.iter().all(|byte| *byte == block[0]);
        *letter = if all { block[0] } else { b'.' };
    }
    text
}

// The letters of blocks from block `lba` on, by one read.
fn read(medium: &mut InProcess, lba: u64, count: usize) -> Result<[u8; 24], StoreFault> {
    let mut bytes = [0; 12_288];
    if lba > 24 || count > 24 || medium.blocks() < lba + count as u64 {
        return Err(StoreFault::NoMemory);
    }
    medium.read_at(lba, &mut bytes[..512 * count])?;
    Ok(spelled(&bytes[..512 * count]))
}

// Writes Z to each byte of so many blocks.
fn write(medium: &mut InProcess, lba: u64, count: usize) -> Result<(), StoreFault> {
    if lba > 24 || count > 24 || medium.blocks() < lba + count as u64 {
        return Err(StoreFault::NoMemory);
    }
    medium.write_at(lba, &[b'Z'; 12_288][..512 * count])
}

/// The server's longest request, and whether its requests are wide; the first block that is read, how many are, and
/// their letters.
type Row = (u32, bool, u64, usize, &'static [u8; 24]);

const ROWS: &[Row] = &[
    (33_554_432, false, 0, 24, b"abcdefghijklmnopqrstuvwx"),
    (4096, false, 0, 24, b"abcdefghijklmnopqrstuvwx"),
    (4096, false, 3, 17, b"defghijklmnopqrst       "),
    (8192, false, 1, 23, b"bcdefghijklmnopqrstuvwx "),
    (4096, true, 0, 24, b"abcdefghijklmnopqrstuvwx"),
    (4096, true, 3, 1, b"d                       "),
    (4096, true, 7, 2, b"hi                      "),
    (4096, true, 5, 18, b"fghijklmnopqrstuvw      "),
    (8192, true, 7, 10, b"hijklmnopq              "),
    (33_554_432, true, 1, 22, b"bcdefghijklmnopqrstuvw  "),
];

#[test]
fn blocks_are_read_by_requests_that_the_server_takes(rt: HostRuntime) -> Result<(), Fail> {
    for row in ROWS {
        let (longest, wide, lba, count, due) = *row;
        if longest % 4096 != 0 || longest < 4096 || longest > 33_554_432 {
            continue;
        }
        let medium = letters(rt.alloc())?;
        if medium.blocks() != 24 {
            continue;
        }
        let line = Served::new(rt.alloc(), medium).taking(RequestSizes { longest, wide });
        let mut medium = NbdMedium::new(line, Silent);
        same(&rt, &read(&mut medium, lba, count), &Ok(*due), row);
        // What follows of what was read is not taken for the next reply.
        same(&rt, &read(&mut medium, lba, count), &Ok(*due), row);
    }
    Ok(())
}

#[test]
fn a_write_is_done_in_parts_but_by_no_wide_request(rt: HostRuntime) -> Result<(), Fail> {
    let rows = [
        (false, Ok(()), b"abcZZZZZZZZZZZZZZZZZuvwx"),
        (true, Err(StoreFault::Device), b"abcdefghijklmnopqrstuvwx"),
    ];
    for (wide, answer, due) in rows {
        let medium = letters(rt.alloc())?;
        if medium.blocks() != 24 {
            continue;
        }
        let sizes = RequestSizes {
            longest: 4096,
            wide,
        };
        let line = Served::new(rt.alloc(), medium).taking(sizes);
        let mut medium = NbdMedium::new(line, Silent);
        same(&rt, &write(&mut medium, 3, 17), &answer, &wide);
        same(&rt, &read(&mut medium, 0, 24), &Ok(*due), &wide);
        same(&rt, &medium.fault(), &None, &wide);
    }
    Ok(())
}
