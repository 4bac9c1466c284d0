//! A disk with a write cache: what a crash leaves of a write behind which some commands came.

use super::{LOGIN, NAME, PING, Trouble, WRITE, config, pdus_at, pdus_in, read_for};
use crate::asserts::same;
use iscsi_sessions::SessionTable;
use scsi_disk::BlockStore;
use scsi_file::{CrashMemory, FileStore, StopsAt};
use scsi_unit::LogicalUnit;
use std::alloc::Global;
use std::process::Abort;

/// How many bytes the disk has: 8 blocks.
const BYTES: usize = 4096;

/// Where block 3 begins, which the worked session writes last, with bytes 44.
const LAST_BLOCK: usize = 1536;

/// Where the byte of a SCSI Command is that has FUA: byte 1 of its descriptor block.
const OPTIONS: usize = 33;

/// The commands behind the write of the worked session, by themselves.
const FLUSH: &str =
    "I> 01810000 00000000 00000000 00000000 00000003 00000000 00000003 00000005 35000000 00000000 00000000 00000000";

const READ: &str =
    "I> 01c10000 00000000 00000000 00000000 00000003 00000200 00000003 00000005 28000000 00000000 01000000 00000000";

const READ_WITH_FUA: &str =
    "I> 01c10000 00000000 00000000 00000000 00000003 00000200 00000003 00000005 28080000 00000000 01000000 00000000";

const LOGOUT: &str =
    "I> 06800000 00000000 00000000 00000000 00000003 00000000 00000003 00000005 00000000 00000000 00000000 00000000";

/// Whether the disk has a write cache; whether the write of the worked session has FUA; what comes
/// behind it; the bytes of block 3 that a crash leaves.
type Row = (bool, bool, &'static str, u8);

const ROWS: &[Row] = &[
    (false, false, "", 0x44),
    (true, false, "", 0x00),
    (true, true, "", 0x44),
    (true, false, FLUSH, 0x44),
    (true, false, READ, 0x00),
    (true, false, READ_WITH_FUA, 0x44),
    (true, false, LOGOUT, 0x44),
];

// A table with one slot, and a disk that keeps for good what is synced.
#[derive(Drop)]
struct Room {
    table: SessionTable,
    store: FileStore<CrashMemory>,
}

impl Room {
    fn into_medium(self) -> CrashMemory {
        self.store.into_medium()
    }
}

// Its session has a disk with a write cache, or without.
fn one_slot(alloc: Global, cached: bool) -> Result<Room, Trouble> {
    let bytes = vec![in alloc; 0u8; BYTES]?;
    let Ok(store) = FileStore::new(CrashMemory::new(alloc, bytes)) else {
        return Err(Trouble::Step("no sync"));
    };
    let mut table = SessionTable::new(alloc, 1)?;
    let unit = LogicalUnit::new(NAME, b"disk-7", false).ok_or(Trouble::Step("no unit"))?;
    let unit = if cached { unit.with_write_back() } else { unit };
    let config = config(alloc)?.with_unit(unit);
    table.slot(config).ok_or(Trouble::Step("no slot"))?;
    Ok(Room { table, store })
}

// Reads a stream for the slot, and writes all answers.
fn read(room: &mut Room, stream: &[u8]) -> Result<(), Trouble> {
    for piece in stream.chunks(4096) {
        read_for(&mut room.table, 0, piece)?;
        for _ in 0..64 {
            if room.table.may_take(0) && room.table.take(0, &mut room.store).is_err() {
                return Err(Trouble::Step("a fault"));
            }
        }
        if room.table.is_lost() || room.table.settle(0, &mut room.store).is_err() {
            return Err(Trouble::Step("no sync"));
        }
        let count = room.table.offered(0).as_bytes().len();
        if room.table.is_taken(0) {
            room.table.sent(0, count);
        }
    }
    Ok(())
}

// What a crash leaves of block 3, where each block goes back by a write that was not synced.
fn check(rt: &impl Abort, alloc: Global, row: &Row) {
    let (cached, has_fua, behind, left) = *row;
    let mut room = one_slot(alloc, cached).expect(rt, "a room");
    let mut write = pdus_in(rt, alloc, "I> ", WRITE);
    if has_fua {
        assert!(rt; write.len() > OPTIONS);
        write[OPTIONS] |= 0x08;
    }
    read(&mut room, &pdus_in(rt, alloc, "I> ", LOGIN)).expect(rt, "a login");
    read(&mut room, &pdus_in(rt, alloc, "I> ", PING)).expect(rt, "a ping");
    read(&mut room, &write).expect(rt, "a write");
    read(&mut room, &pdus_at(rt, alloc, "I> ", behind)).expect(rt, "a command");
    same(rt, &room.store.failures(), &0, row);
    let mut medium = room.into_medium();
    medium.crash(&[1, 1, 1, 1]);
    let bytes = medium.bytes();
    assert!(rt; bytes.len() > LAST_BLOCK);
    same(rt, &bytes[LAST_BLOCK], &left, row);
}

#[test]
fn what_a_crash_leaves(rt: HostRuntime) {
    for row in ROWS {
        check(&rt, rt.alloc(), row);
    }
}

// Has all that waits at slot 0 written, and says whether the store was settled for it.
fn answers<S: BlockStore>(table: &mut SessionTable, store: &mut S) -> bool {
    if table.is_lost() || table.settle(0, store).is_err() {
        return false;
    }
    let count = table.offered(0).as_bytes().len();
    if table.is_taken(0) {
        table.sent(0, count);
    }
    true
}

// Whether a sync fails while a session logs in and writes, over a medium of which so many calls work. Once it
// does, neither its slot nor another one is read or takes anything.
fn loses(rt: &impl Abort, alloc: Global, calls: u64) -> Result<bool, Trouble> {
    let bytes = vec![in alloc; 0u8; BYTES]?;
    let Ok(mut store) = FileStore::new(StopsAt::new(CrashMemory::new(alloc, bytes), calls)) else {
        return Ok(false);
    };
    let mut table = SessionTable::new(alloc, 2)?;
    table.slot(config(alloc)?).ok_or(Trouble::Step("no slot"))?;
    table.slot(config(alloc)?).ok_or(Trouble::Step("no slot"))?;
    for lines in [LOGIN, PING, WRITE] {
        for piece in pdus_in(rt, alloc, "I> ", lines).chunks(4096) {
            same(rt, &table.may_read(1), &true, &calls);
            read_for(&mut table, 0, piece)?;
            for _ in 0..64 {
                if table.may_take(0) {
                    let _ = table.take(0, &mut store);
                }
            }
            if !answers(&mut table, &mut store) {
                let may = (table.may_read(0), table.may_take(0), table.may_read(1));
                same(rt, &may, &(false, false, false), &calls);
                return Ok(table.is_lost());
            }
        }
    }
    Ok(false)
}

/// The write of the worked session is the only one, so a medium that stops before it has no sync that fails
/// behind a login, and one that stops at the sync behind it has one.
#[test]
fn nothing_behind_a_failed_sync(rt: HostRuntime) {
    let lost = (0..64)
        .filter(|calls| loses(&rt, rt.alloc(), *calls).expect(&rt, "a session"))
        .count();
    assert!(rt; 0 < lost);
}
