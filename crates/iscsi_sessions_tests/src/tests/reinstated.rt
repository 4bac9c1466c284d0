//! A session that takes the place of an older one, as RFC 7143, section 6.3.5, has it.

use super::{LOGIN, Room, check_phase, pdus_in, read_pieces, room_of};
use crate::asserts::same;
use iscsi_login::Phase;
use std::alloc::Global;
use std::process::Abort;

// Logs a slot in by the login of the worked session, with this last byte of its ISID.
fn log_in(rt: &impl Abort, alloc: Global, room: &mut Room, slot: usize, last: u8) {
    let mut stream = pdus_in(rt, alloc, "I> ", LOGIN);
    if let Some(byte) = stream.get_mut(13) {
        *byte = last;
    }
    let mut out = Vec::new(alloc);
    let fault = read_pieces(room, slot, &stream, 48, &mut out).expect(rt, "pieces");
    same(rt, &fault, &None, &(slot, last));
    check_phase(rt, room, slot, Some(Phase::Full), &last);
}

// Asserts whose place a slot takes.
fn check_place(rt: &impl Abort, room: &Room, slot: usize, due: Option<usize>, row: &str) {
    same(rt, &room.table.taken_over(slot), &due, &row);
}

/// The same name and ISID once more take the place of the session that has them, and another ISID
/// takes none.
#[test]
fn a_second_login(rt: HostRuntime) {
    let mut room = room_of(&rt, rt.alloc(), 4);
    log_in(&rt, rt.alloc(), &mut room, 1, 7);
    check_place(&rt, &room, 1, None, "the first one");
    log_in(&rt, rt.alloc(), &mut room, 2, 8);
    check_place(&rt, &room, 2, None, "another ISID");
    log_in(&rt, rt.alloc(), &mut room, 0, 7);
    check_place(&rt, &room, 0, Some(1), "the same once more");
    room.table.leave(1);
    check_place(&rt, &room, 0, None, "the older one has left");
    check_place(&rt, &room, 3, None, "not logged in");
    check_place(&rt, &room, 1, None, "a free slot");
}
