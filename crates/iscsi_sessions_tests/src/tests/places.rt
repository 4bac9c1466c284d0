//! Which slots are taken, read and fed.

use super::{
    LOGIN, PING, Room, check_phase, config, pdus_at, pdus_in, play_part, read_into, read_piece,
    room_of, write_out,
};
use crate::asserts::same;
use iscsi_login::Phase;
use iscsi_stream::StreamFault;
use iscsi_target::TargetFault;
use std::alloc::Global;
use std::process::Abort;

// A new session has this slot, or none.
fn check_slot(rt: &impl Abort, alloc: Global, room: &mut Room, due: Option<usize>, row: &str) {
    let config = config(alloc).expect(rt, "a configuration");
    same(rt, &room.table.slot(config), &due, &row);
}

/// A session more than there are slots has none, until one is left.
#[test]
fn one_session_more(rt: HostRuntime) {
    let mut room = room_of(&rt, rt.alloc(), 3);
    same(&rt, &room.table.slots(), &3, &"how many");
    check_slot(&rt, rt.alloc(), &mut room, None, "all are taken");
    room.table.leave(1);
    check_phase(&rt, &room, 1, None, &"a free slot");
    same(&rt, &room.table.is_taken(1), &false, &"a free slot");
    same(&rt, &room.table.is_taken(3), &false, &"behind the last one");
    check_slot(&rt, rt.alloc(), &mut room, Some(1), "the one that was left");
    check_phase(&rt, &room, 1, Some(Phase::Login), &"a new session");
}

/// Sixty-four sessions log in, each before the next one.
#[test]
fn sixty_four_slots(rt: HostRuntime) {
    let mut room = room_of(&rt, rt.alloc(), 64);
    for slot in 0..64 {
        play_part(&rt, rt.alloc(), &mut room, slot, LOGIN, 8192);
    }
    for slot in 0..64 {
        check_phase(&rt, &room, slot, Some(Phase::Full), &"logged in");
    }
}

// Asserts what may be done with the first slot: whether it may be read, and may take a PDU.
fn check_may(rt: &impl Abort, room: &Room, due: (bool, bool), row: &str) {
    let may = (room.table.may_read(0), room.table.may_take(0));
    same(rt, &may, &due, &row);
}

// So many bytes of answers wait at the first slot.
fn check_waiting(rt: &impl Abort, room: &Room, due: usize, row: &str) {
    same(rt, &room.table.waiting(0).len(), &due, &row);
}

// Has the first slot take a PDU.
fn take(rt: &impl Abort, room: &mut Room) {
    same(rt, &room.table.may_take(0), &true, &"may take");
    if room.table.may_take(0) {
        room.table.take(0, &mut room.store).expect(rt, "a PDU");
    }
}

// A table of one slot that has read a login of two PDUs, and taken the first.
fn with_an_answer(rt: &impl Abort, alloc: Global) -> Box<Room> {
    let stream = pdus_in(rt, alloc, "I> ", LOGIN);
    let mut room = room_of(rt, alloc, 1);
    read_into(&mut room, 0, &stream).expect(rt, "a login");
    take(rt, &mut room);
    room
}

// Writes what waits at the first slot.
fn written(rt: &impl Abort, alloc: Global, room: &mut Room) -> Vec<u8> {
    let mut out = Vec::new(alloc);
    write_out(room, 0, &mut out).expect(rt, "what waits");
    out
}

// So many bytes of what waits at the first slot are written.
fn send(room: &mut Room, count: usize) {
    if room.table.waiting(0).len() >= count && room.table.is_taken(0) {
        room.table.sent(0, count);
    }
}

/// A slot whose answers were offered, and aren't all written, is not read, and takes nothing.
#[test]
fn answers_that_wait(rt: HostRuntime) {
    let mut room = with_an_answer(&rt, rt.alloc());
    // A header, and a text of 39 bytes in 40.
    check_waiting(&rt, &room, 88, "the first answer");
    check_may(&rt, &room, (false, true), "nothing was offered");
    send(&mut room, 0);
    check_may(&rt, &room, (false, false), "nothing is written");
    send(&mut room, 47);
    check_waiting(&rt, &room, 41, "what is left");
    check_may(&rt, &room, (false, false), "a part is written");
    let rest = written(&rt, rt.alloc(), &mut room);
    same(&rt, &rest.len(), &41, &"the rest");
    check_may(&rt, &room, (false, true), "all is written");
}

/// The answers to what was read wait together, and are those that were written one by one.
#[test]
fn answers_that_are_gathered(rt: HostRuntime) {
    let mut room = with_an_answer(&rt, rt.alloc());
    take(&rt, &mut room);
    let out = written(&rt, rt.alloc(), &mut room);
    let want = pdus_in(&rt, rt.alloc(), "T> ", LOGIN);
    same(&rt, &out, &want, &"the login's answers");
    check_may(&rt, &room, (true, false), "all is written");
}

// Two READs of 128 blocks.
const TWO_READS: &str =
    "I> 01c10000 00000000 00000000 00000000 00000001 00010000 00000001 00000003 28000000 00000000 80000000 00000000\n\
    I> 01c10000 00000000 00000000 00000000 00000002 00010000 00000002 00000003 28000000 00000000 80000000 00000000";

/// No more answers are gathered where 65,536 bytes of them wait.
#[test]
fn answers_enough(rt: HostRuntime) {
    let mut room = room_of(&rt, rt.alloc(), 1);
    play_part(&rt, rt.alloc(), &mut room, 0, LOGIN, 48);
    let reads = pdus_at(&rt, rt.alloc(), "I> ", TWO_READS);
    read_into(&mut room, 0, &reads).expect(&rt, "two READs");
    take(&rt, &mut room);
    // 64 bursts of 1,024 bytes, each in one segment with a header, and a response.
    check_waiting(&rt, &room, 68_656, "of one READ");
    check_may(&rt, &room, (false, false), "enough");
    written(&rt, rt.alloc(), &mut room);
    check_may(&rt, &room, (false, true), "all is written");
    take(&rt, &mut room);
    check_waiting(&rt, &room, 68_656, "of the other");
}

// Asserts how the stream of a slot ends.
fn check_end(
    rt: &impl Abort,
    room: &mut Room,
    slot: usize,
    due: Result<(), TargetFault>,
    row: &str,
) {
    same(rt, &room.table.is_taken(slot), &true, &row);
    if room.table.is_taken(slot) {
        same(rt, &room.table.finish(slot), &due, &row);
    }
}

/// The end of a stream between two PDUs, within one, and after that.
#[test]
fn ends(rt: HostRuntime) {
    let mut room = room_of(&rt, rt.alloc(), 2);
    play_part(&rt, rt.alloc(), &mut room, 0, LOGIN, 48);
    check_end(&rt, &mut room, 0, Ok(()), "between two PDUs");
    let mut out = Vec::new(rt.alloc());
    read_piece(&mut room, 1, &[0x43], &mut out).expect(&rt, "a byte");
    let fault = TargetFault::Stream(StreamFault::Truncated(0));
    check_end(&rt, &mut room, 1, Err(fault), "within a PDU");
    check_phase(&rt, &room, 1, Some(Phase::Closed), &"within a PDU");
    check_end(&rt, &mut room, 1, Err(TargetFault::Closed), "once more");
    play_part(&rt, rt.alloc(), &mut room, 0, PING, 48);
}
