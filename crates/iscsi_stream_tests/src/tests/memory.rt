//! Memory that is refused, for `rt try --test --fail-alloc`: nothing but its want may come in place of an answer.

use super::rows::{NOP_OUT, lines_of};
use crate::asserts::{same, same_bytes};
use iscsi_stream::{Counts, Framer, StreamFault, ToolFault, canonical, show, show_line};
use iscsi_test_support::marked;
use std::alloc::Global;
use std::process::Abort;

// What a test stands on, the lines of a NOP-Out that have this mark, is made again where memory ran out.
fn ample(rt: &impl Abort, alloc: Global, mark: &str) -> Vec<u8> {
    let lines = lines_of(rt, NOP_OUT);
    match marked(alloc, lines, mark) {
        Ok(stream) => stream,
        Err(_) => marked(alloc, lines, mark).expect(rt, "a NOP-Out"),
    }
}

const LINE: &[u8] =
    b"0 NOP-Out i=1 itt=00000001 ttt=ffffffff cmdsn=00000005 expstatsn=00000002 data=3\n";

// Shows a stream once more.
fn show_again(rt: &impl Abort, alloc: Global, stream: &[u8], room: &mut [u8]) {
    let mut source = stream;
    let mut out = room;
    let shown = show(alloc, &mut source, &mut out);
    let due = Counts {
        pdus: 1,
        bytes_in: 52,
        bytes_out: LINE.len() as u64,
    };
    same(rt, &shown, &Ok(due), &"once more");
}

// Shows a stream, once more where memory ran out: then nothing was written.
fn show_at_last(rt: &impl Abort, alloc: Global, stream: &[u8], room: &mut [u8]) {
    let mut source = stream;
    let mut out = &mut *room;
    let result = show(alloc, &mut source, &mut out);
    if result.is_err() {
        same(rt, &result, &Err(ToolFault::NoMemory), &"fault");
        same(rt, &out.len(), &128, &"room left");
        show_again(rt, alloc, stream, room);
    }
}

#[test]
fn refused_memory_changes_no_line(rt: HostRuntime) {
    let stream = ample(&rt, rt.alloc(), "> ");
    let mut room = [0u8; 128];
    show_at_last(&rt, rt.alloc(), &stream, &mut room);
    same(&rt, &room.get(..LINE.len()), &Some(LINE), &"line");
}

// A framer with the stream's PDU ready, made again where memory ran out.
fn ready_framer(rt: &impl Abort, alloc: Global, stream: &[u8]) -> Framer {
    let mut framer = Framer::new(alloc, 3);
    if framer.feed(stream) != Err(StreamFault::NoMemory) {
        return framer;
    }
    let failed = StreamFault::Failed;
    same(rt, &framer.feed(stream), &Err(failed), &"after the fault");
    same(rt, &framer.finish(), &Err(failed), &"end after the fault");
    let mut again = Framer::new(alloc, 3);
    same(rt, &again.feed(stream), &Ok(52), &"taken");
    again
}

// The canonical form of the ready PDU, for which nothing is written where memory runs out.
fn canonical_at_last(rt: &impl Abort, alloc: Global, framer: &Framer) -> Vec<u8> {
    let pdu = framer.pdu().expect(rt, "not ready");
    let mut out = Vec::new(alloc);
    if canonical(&pdu, false, &mut out).is_err() {
        same(rt, &out.len(), &0, &"written");
        canonical(&pdu, false, &mut out).expect(rt, "once more");
    }
    out
}

// Appends the line of the ready PDU, for which nothing is written where memory runs out.
fn line_at_last(rt: &impl Abort, framer: &Framer, want: &[u8], out: &mut Vec<u8>) {
    let pdu = framer.pdu().expect(rt, "not ready");
    if show_line(0, &pdu, out).is_err() {
        same_bytes(rt, out, want, &"canonical before a line");
        show_line(0, &pdu, out).expect(rt, "once more");
    }
}

// The canonical form of the ready PDU, and its line behind it.
fn check_at_last(rt: &impl Abort, alloc: Global, framer: &Framer, want: &[u8]) {
    let mut out = canonical_at_last(rt, alloc, framer);
    same_bytes(rt, &out, want, &"canonical");
    line_at_last(rt, framer, want, &mut out);
    same(rt, &out.get(want.len()..), &Some(LINE), &"line");
}

/// A PDU at a time: what ran out of memory leaves what was there, and the next call gives what is due.
#[test]
fn refused_memory_leaves_what_was_there(rt: HostRuntime) {
    let stream = ample(&rt, rt.alloc(), "> ");
    let want = ample(&rt, rt.alloc(), "< ");
    let framer = ready_framer(&rt, rt.alloc(), &stream);
    check_at_last(&rt, rt.alloc(), &framer, &want);
}
