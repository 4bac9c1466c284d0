//! Several sessions over one disk. Their PDUs are those of a worked session, or worked out by hand
//! from the tables of RFC 7143, section 11.

use crate::asserts::same;
use iscsi_login::{Phase, Preferences};
use iscsi_sessions::{MOST_READ, SessionTable};
use iscsi_target::{Config, TargetFault};
use iscsi_test_support::{LineFault, SESSION, marked};
use scsi_disk::SparseStore;
use scsi_unit::LogicalUnit;
use std::alloc::{AllocError, Global};
use std::fmt::Debug;
use std::process::Abort;

mod flushes;
mod interleaved;
mod places;
mod reinstated;

// The lines of the worked session: its login, and what comes then up to its read and its logout.
const LOGIN: (usize, usize) = (0, 5);

const PING: (usize, usize) = (5, 3);

const WRITE: (usize, usize) = (8, 7);

const READ: (usize, usize) = (15, 4);

const LOGOUT: (usize, usize) = (19, 3);

/// Why there is nothing to look at.
#[derive(Clone, Copy, Debug)]
enum Trouble {
    /// Memory ran out.
    NoMemory,
    /// A step isn't possible.
    Step(&'static str),
}

impl From<AllocError> for Trouble {
    fn from(_: AllocError) -> Trouble {
        Trouble::NoMemory
    }
}

impl From<LineFault> for Trouble {
    fn from(_: LineFault) -> Trouble {
        Trouble::Step("no line")
    }
}

/// The name of the target.
const NAME: &[u8] = b"iqn.2026-01.example:disk";

/// The most turns that one read leads to here.
const MOST_TURNS: usize = 4096;

// What the target of the worked session is configured with: bursts of 1,024 bytes, segments of 512.
fn config(alloc: Global) -> Result<Config, Trouble> {
    let mut preferences = Preferences::standard();
    preferences.max_burst = 1024;
    preferences.first_burst = 1024;
    preferences.max_recv = 512;
    match Config::new(alloc, NAME, 1, 1, preferences) {
        Ok(config) => Ok(config),
        Err(_) => Err(Trouble::NoMemory),
    }
}

// The same, whose disk tells more of itself.
fn telling(alloc: Global) -> Result<Config, Trouble> {
    let unit = LogicalUnit::new(NAME, b"disk-7", false).ok_or(Trouble::Step("no unit"))?;
    Ok(config(alloc)?.with_unit(unit))
}

// A table, and the disk of all its sessions.
#[derive(Drop)]
struct Room {
    table: SessionTable,
    store: SparseStore,
}

// A disk of 2,048 blocks of 00, and so many slots, all taken. It stands in a box: a function that
// owns it is then proved much sooner.
fn full_room(alloc: Global, slots: usize) -> Result<Box<Room>, Trouble> {
    let mut room = free_room(alloc, slots)?;
    for _ in 0..slots {
        room.table
            .slot(config(alloc)?)
            .ok_or(Trouble::Step("no slot"))?;
    }
    Ok(room)
}

// Two slots, all taken, whose disk tells more of itself.
fn telling_room(alloc: Global) -> Result<Box<Room>, Trouble> {
    let mut room = free_room(alloc, 2)?;
    for _ in 0..2 {
        room.table
            .slot(telling(alloc)?)
            .ok_or(Trouble::Step("no slot"))?;
    }
    Ok(room)
}

// A disk of 2,048 blocks of 00, and so many slots, all free.
fn free_room(alloc: Global, slots: usize) -> Result<Box<Room>, Trouble> {
    let store = SparseStore::new(alloc, 2048);
    let table = SessionTable::new(alloc, slots)?;
    match Box::new(alloc, Room { table, store }) {
        Ok(room) => Ok(room),
        Err(fault) => Err(AllocError::from(fault).into()),
    }
}

// Writes what waits at a slot.
fn write_out(room: &mut Room, slot: usize, out: &mut Vec<u8>) -> Result<(), Trouble> {
    if room.table.is_lost() || room.table.settle(slot, &mut room.store).is_err() {
        return Err(Trouble::Step("no sync"));
    }
    let waiting = room.table.offered(slot);
    let count = waiting.as_bytes().len();
    out.extend_from_slice(waiting.as_bytes())?;
    drop(waiting);
    if room.table.is_taken(slot) {
        room.table.sent(slot, count);
    }
    Ok(())
}

// Reads a piece for a slot.
fn read_into(room: &mut Room, slot: usize, piece: &[u8]) -> Result<(), Trouble> {
    read_for(&mut room.table, slot, piece)
}

// Reads a piece for a slot of a table.
fn read_for(table: &mut SessionTable, slot: usize, mut piece: &[u8]) -> Result<(), Trouble> {
    if piece.len() > MOST_READ || !table.may_read(slot) {
        return Err(Trouble::Step("may not be read"));
    }
    match table.read(slot, &mut piece) {
        Ok(_) => Ok(()),
        Err(_) => Err(Trouble::NoMemory),
    }
}

// Reads a piece for a slot, has it taken turn by turn, and writes all answers. Gives the fault that
// came, if one did.
fn read_piece(
    room: &mut Room,
    slot: usize,
    piece: &[u8],
    out: &mut Vec<u8>,
) -> Result<Option<TargetFault>, Trouble> {
    read_into(room, slot, piece)?;
    for _ in 0..MOST_TURNS {
        if !room.table.may_take(slot) {
            return Ok(None);
        }
        let result = room.table.take(slot, &mut room.store);
        write_out(room, slot, out)?;
        if let Err(fault) = result {
            return Ok(Some(fault));
        }
    }
    Err(Trouble::Step("too many turns"))
}

// Reads a stream for a slot in pieces of this length, up to a fault.
fn read_pieces(
    room: &mut Room,
    slot: usize,
    stream: &[u8],
    len: usize,
    out: &mut Vec<u8>,
) -> Result<Option<TargetFault>, Trouble> {
    for piece in stream.chunks(len.max(1)) {
        let fault = read_piece(room, slot, piece, out)?;
        if fault.is_some() {
            return Ok(fault);
        }
    }
    Ok(None)
}

// So many lines of the worked session, from one on.
fn part(alloc: Global, lines: (usize, usize)) -> Result<String, Trouble> {
    let (first, count) = lines;
    let mut text = String::new(alloc);
    for line in SESSION.lines().skip(first).take(count) {
        text.push_str(line)?;
        text.push_str("\n")?;
    }
    Ok(text)
}

// A full room of so many slots.
fn room_of(rt: &impl Abort, alloc: Global, slots: usize) -> Box<Room> {
    full_room(alloc, slots).expect(rt, "a room")
}

// The PDUs of one end, of which this is the mark, in a text of both.
fn pdus_at(rt: &impl Abort, alloc: Global, mark: &str, lines: &str) -> Vec<u8> {
    marked(alloc, lines, mark).expect(rt, "PDUs")
}

// The same in lines of the worked session.
fn pdus_in(rt: &impl Abort, alloc: Global, mark: &str, lines: (usize, usize)) -> Vec<u8> {
    let text = part(alloc, lines).expect(rt, "lines");
    pdus_at(rt, alloc, mark, &text)
}

// Has a slot read what the initiator sends in these lines, in pieces of this length, and asserts
// that the target answers as they say.
fn play(rt: &impl Abort, alloc: Global, room: &mut Room, slot: usize, lines: &str, len: usize) {
    let stream = pdus_at(rt, alloc, "I> ", lines);
    let want = pdus_at(rt, alloc, "T> ", lines);
    let mut out = Vec::new(alloc);
    let fault = read_pieces(room, slot, &stream, len, &mut out).expect(rt, "pieces");
    same(rt, &out, &want, &(slot, len, lines));
    same(rt, &fault, &None, &(slot, len, lines));
}

// The same with lines of the worked session.
fn play_part(
    rt: &impl Abort,
    alloc: Global,
    room: &mut Room,
    slot: usize,
    lines: (usize, usize),
    len: usize,
) {
    let text = part(alloc, lines).expect(rt, "lines");
    play(rt, alloc, room, slot, &text, len);
}

// Asserts in which phase a slot is: in none where it is free.
fn check_phase(rt: &impl Abort, room: &Room, slot: usize, due: Option<Phase>, row: &impl Debug) {
    same(rt, &room.table.phase(slot), &due, &(slot, row));
}
