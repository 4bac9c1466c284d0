//! Sessions whose PDUs come in between each other's.

use super::{
    LOGIN, LOGOUT, PING, READ, Room, WRITE, check_phase, config, pdus_at, pdus_in, play, play_part,
    read_piece, read_pieces, room_of, telling_room,
};
use crate::asserts::same;
use iscsi_login::Phase;
use iscsi_pdu::HeadFault;
use iscsi_stream::StreamFault;
use iscsi_target::{Target, TargetFault};
use iscsi_test_support::SESSION;
use scsi_disk::SparseStore;
use std::alloc::Global;
use std::process::Abort;

/// The lengths of pieces: a byte, less than a header, a header, and many PDUs.
const LENGTHS: &[usize] = &[1, 47, 48, 8192];

// A READ of block 3, which is of 00, as the first command of a session, and its answer.
const FIRST_READ: &str =
    "I> 01c10000 00000000 00000000 00000000 00000001 00000200 00000001 00000003 28000000 00030000 01000000 00000000\n\
    T> 25800000 00000200 00000000 00000000 00000001 ffffffff 00000000 00000002 00000009 00000000 00000000 00000000 00*512\n\
    T> 21800000 00000000 00000000 00000000 00000001 00000000 00000003 00000002 00000009 00000001 00000000 00000000";

// The same READ as the second command, after the worked session has written 44 to the block.
const SECOND_READ: &str =
    "I> 01c10000 00000000 00000000 00000000 00000002 00000200 00000002 00000004 28000000 00030000 01000000 00000000\n\
    T> 25800000 00000200 00000000 00000000 00000002 ffffffff 00000000 00000003 0000000a 00000000 00000000 00000000 44*512\n\
    T> 21800000 00000000 00000000 00000000 00000002 00000000 00000004 00000003 0000000a 00000001 00000000 00000000";

// What a target answers to a whole session.
fn alone(rt: &impl Abort, alloc: Global, stream: &[u8]) -> Vec<u8> {
    let mut store = SparseStore::new(alloc, 2048);
    let config = config(alloc).expect(rt, "a configuration");
    let mut target = Box::new(alloc, Target::new(alloc, config, 1)).expect(rt, "a target");
    let mut out = Vec::new(alloc);
    let phase = target.feed(stream, &mut store, &mut out);
    same(rt, &phase, &Ok(Phase::Closed), &"the target");
    out
}

// What the one slot of a table answers to a stream.
fn filled(rt: &impl Abort, alloc: Global, stream: &[u8], len: usize) -> Vec<u8> {
    let mut room = room_of(rt, alloc, 1);
    let mut out = Vec::new(alloc);
    read_pieces(&mut room, 0, stream, len, &mut out).expect(rt, "pieces");
    out
}

// The worked session at the one slot of a table.
fn check_one(rt: &impl Abort, alloc: Global, len: usize) {
    let mut room = room_of(rt, alloc, 1);
    play(rt, alloc, &mut room, 0, SESSION, len);
    check_phase(rt, &room, 0, Some(Phase::Closed), &len);
}

/// One session alone answers what a target does, and what the worked session says.
#[test]
fn one_session(rt: HostRuntime) {
    let stream = pdus_at(&rt, rt.alloc(), "I> ", SESSION);
    let alone = alone(&rt, rt.alloc(), &stream);
    for len in LENGTHS {
        check_one(&rt, rt.alloc(), *len);
        same(&rt, &filled(&rt, rt.alloc(), &stream, *len), &alone, len);
    }
}

// A write of one session between two reads of another, in pieces of this length.
fn check_write(rt: &impl Abort, alloc: Global, room: &mut Room, len: usize) {
    play_part(rt, alloc, room, 0, LOGIN, len);
    play_part(rt, alloc, room, 1, LOGIN, len);
    play(rt, alloc, room, 0, FIRST_READ, len);
    play_part(rt, alloc, room, 1, PING, len);
    play_part(rt, alloc, room, 1, WRITE, len);
    play(rt, alloc, room, 0, SECOND_READ, len);
    play_part(rt, alloc, room, 1, READ, len);
    play_part(rt, alloc, room, 1, LOGOUT, len);
    check_phase(rt, room, 0, Some(Phase::Full), &len);
    check_phase(rt, room, 1, Some(Phase::Closed), &len);
}

#[test]
fn a_write_between_two_reads(rt: HostRuntime) {
    for len in LENGTHS {
        check_write(&rt, rt.alloc(), &mut room_of(&rt, rt.alloc(), 2), *len);
    }
}

// A COMPARE AND WRITE of block 3, whose data are asked for.
const LOCK: &str =
    "I> 01a10000 00000000 00000000 00000000 00000001 00000400 00000001 00000003 89000000 00000000 00030000 00010000\n\
    T> 31800000 00000000 00000000 00000000 00000001 00000000 00000003 00000002 00000008 00000000 00000000 00000400";

// Its data: a block of 00 is expected, and one of 55 is written.
const LOCKED: &str =
    "I> 05000000 00000200 00000000 00000000 00000001 00000000 00000000 00000003 00000000 00000000 00000000 00000000 00*512\n\
    I> 05800000 00000200 00000000 00000000 00000001 00000000 00000000 00000003 00000000 00000001 00000200 00000000 55*512\n\
    T> 21800000 00000000 00000000 00000000 00000001 00000000 00000003 00000002 00000009 00000000 00000000 00000000";

// The same data but for 44, which come too late: the first byte is another.
const TOO_LATE: &str =
    "I> 05000000 00000200 00000000 00000000 00000001 00000000 00000000 00000003 00000000 00000000 00000000 00000000 00*512\n\
    I> 05800000 00000200 00000000 00000000 00000001 00000000 00000000 00000003 00000000 00000001 00000200 00000000 44*512\n\
    T> 21820002 00000014 00000000 00000000 00000001 00000000 00000003 00000002 00000009 00000000 00000000 00000400 0012f0000e000000000a000000001d0000000000";

// A READ of the block, which gives 55.
const LOCKED_READ: &str =
    "I> 01c10000 00000000 00000000 00000000 00000002 00000200 00000002 00000004 28000000 00030000 01000000 00000000\n\
    T> 25800000 00000200 00000000 00000000 00000002 ffffffff 00000000 00000003 0000000a 00000000 00000000 00000000 55*512\n\
    T> 21800000 00000000 00000000 00000000 00000002 00000000 00000004 00000003 0000000a 00000001 00000000 00000000";

/// Of two sessions that compare and write the same block, that one does whose data come first.
#[test]
fn one_of_two_sessions_compares_and_writes(rt: HostRuntime) {
    for len in LENGTHS {
        let mut room = telling_room(rt.alloc()).expect(&rt, "a room");
        play_part(&rt, rt.alloc(), &mut room, 0, LOGIN, *len);
        play_part(&rt, rt.alloc(), &mut room, 1, LOGIN, *len);
        play(&rt, rt.alloc(), &mut room, 0, LOCK, *len);
        play(&rt, rt.alloc(), &mut room, 1, LOCK, *len);
        play(&rt, rt.alloc(), &mut room, 1, LOCKED, *len);
        play(&rt, rt.alloc(), &mut room, 0, TOO_LATE, *len);
        play(&rt, rt.alloc(), &mut room, 0, LOCKED_READ, *len);
        play(&rt, rt.alloc(), &mut room, 1, LOCKED_READ, *len);
    }
}

// Has two slots read the same stream, a piece of this length in turn, and asserts that each answers
// what is due.
fn check_in_turn(
    rt: &impl Abort,
    alloc: Global,
    room: &mut Room,
    stream: &[u8],
    want: &Vec<u8>,
    len: usize,
) {
    let (mut first, mut second) = (Vec::new(alloc), Vec::new(alloc));
    for piece in stream.chunks(len.max(1)) {
        read_piece(room, 0, piece, &mut first).expect(rt, "a piece");
        read_piece(room, 1, piece, &mut second).expect(rt, "a piece");
    }
    same(rt, &first, want, &len);
    same(rt, &second, want, &len);
    check_phase(rt, room, 1, Some(Phase::Full), &len);
}

/// Two logins, of which each has a piece in turn.
#[test]
fn two_logins(rt: HostRuntime) {
    let stream = pdus_in(&rt, rt.alloc(), "I> ", LOGIN);
    let want = pdus_in(&rt, rt.alloc(), "T> ", LOGIN);
    for len in LENGTHS {
        let mut room = room_of(&rt, rt.alloc(), 2);
        check_in_turn(&rt, rt.alloc(), &mut room, &stream, &want, *len);
    }
}

// A fault of one session between two PDUs of another, in pieces of this length.
fn check_fault(rt: &impl Abort, alloc: Global, room: &mut Room, unknown: &[u8], len: usize) {
    let fault = TargetFault::Stream(StreamFault::Head(HeadFault::UnknownOpcode, 0));
    play_part(rt, alloc, room, 0, LOGIN, len);
    let mut out = Vec::new(alloc);
    let came = read_pieces(room, 1, unknown, len, &mut out).expect(rt, "pieces");
    same(rt, &came, &Some(fault), &len);
    check_phase(rt, room, 1, Some(Phase::Closed), &len);
    play_part(rt, alloc, room, 0, PING, len);
    check_phase(rt, room, 0, Some(Phase::Full), &len);
}

#[test]
fn a_fault_of_one(rt: HostRuntime) {
    let mut unknown = [0; 48];
    unknown[0] = 0x1f;
    for len in LENGTHS {
        let mut room = room_of(&rt, rt.alloc(), 2);
        check_fault(&rt, rt.alloc(), &mut room, &unknown, *len);
    }
}
