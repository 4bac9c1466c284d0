//! Readers and writers that fail.

use super::rows::{COUNT, NOP_OUT, Row, lines_of, row_at, row_of};
use super::runs::run_with;
use super::{came_of, written_of};
use crate::asserts::{same, same_bytes};
use iscsi_stream::{ToolFault, write_fully};
use iscsi_test_support::{SURE, Sink, Steps};
use std::alloc::Global;
use std::process::Abort;

const LINE: &[u8] =
    b"0 NOP-Out i=1 itt=00000001 ttt=ffffffff cmdsn=00000005 expstatsn=00000002 data=3\n";

// So many bytes in a call, of which the second fails.
fn second_fails(step: usize) -> Steps {
    Steps {
        step,
        before: Some(1),
    }
}

// A stream of two PDUs is shown or normalised, over such a reader and writer.
fn check_two(
    rt: &impl Abort,
    alloc: Global,
    is_shown: bool,
    steps: (Steps, Steps),
    fault: ToolFault,
    want: &[u8],
) {
    let mut stream = came_of(rt, alloc, lines_of(rt, NOP_OUT));
    let second = came_of(rt, alloc, lines_of(rt, NOP_OUT));
    stream.extend_from_slice(&second).expect(rt, "two PDUs");
    let met = run_with(alloc, is_shown, &stream, steps.0, steps.1);
    same(rt, &met.result, &Err(fault), &is_shown);
    same_bytes(rt, &met.sink.taken, want, &is_shown);
}

#[test]
fn a_read_fails_in_the_second_pdu(rt: HostRuntime) {
    let want = written_of(&rt, rt.alloc(), lines_of(&rt, NOP_OUT));
    let steps = (second_fails(60), SURE);
    check_two(&rt, rt.alloc(), false, steps, ToolFault::Read, &want);
    check_two(&rt, rt.alloc(), true, steps, ToolFault::Read, LINE);
}

#[test]
fn a_write_fails_after_ten_bytes(rt: HostRuntime) {
    let want = written_of(&rt, rt.alloc(), lines_of(&rt, NOP_OUT));
    let want = want.get(..10).expect(&rt, "too short");
    let steps = (SURE, second_fails(10));
    check_two(&rt, rt.alloc(), false, steps, ToolFault::Write, want);
    let line = b"0 NOP-Out ";
    check_two(&rt, rt.alloc(), true, steps, ToolFault::Write, line);
}

// A writer takes no byte. Where there is nothing to write, nothing fails.
fn check_no_byte(rt: &impl Abort, sink: &mut Sink) {
    let written = write_fully(sink, b"abc");
    same(rt, &written, &Err(ToolFault::Write), &"three bytes");
    same(rt, &write_fully(sink, b""), &Ok(()), &"no byte");
}

#[test]
fn a_write_takes_no_byte(rt: HostRuntime) {
    let stream = came_of(&rt, rt.alloc(), lines_of(&rt, NOP_OUT));
    let none = Steps::of(0);
    let met = run_with(rt.alloc(), false, &stream, SURE, none);
    same(&rt, &met.result, &Err(ToolFault::Write), &"result");
    same(&rt, &met.sink.taken.len(), &0, &"written");
    check_no_byte(&rt, &mut Sink::new(rt.alloc(), none));
}

// Reads of 48 bytes and writes of 20, of which one fails, by this fault, after others.
fn one_fails(fault: ToolFault, before: usize) -> (Steps, Steps) {
    let before = Some(before);
    if fault == ToolFault::Read {
        return (Steps { step: 48, before }, Steps::of(20));
    }
    (Steps::of(48), Steps { step: 20, before })
}

// The call behind so many others fails, if there is one: then the fault comes. Says whether there is.
fn check_fault(
    rt: &impl Abort,
    alloc: Global,
    row: &Row<'_>,
    fault: ToolFault,
    before: usize,
) -> bool {
    let (reads, writes) = one_fails(fault, before);
    let met = run_with(alloc, false, &row.came, reads, writes);
    let is_met = met.failures > 0;
    let at = (row.name, before);
    same(rt, &(met.result == Err(fault)), &is_met, &at);
    same(rt, &met.result.is_ok(), &!is_met, &at);
    same(rt, &row.want.starts_with(&met.sink.taken), &true, &at);
    if !is_met {
        same(rt, &met.sink.taken, &row.want, &at);
    }
    is_met
}

// A call fails in turn until a run meets no failure: the fault comes exactly in the runs with one.
fn check_each(rt: &impl Abort, alloc: Global, row: &str, fault: ToolFault) {
    let row = row_of(rt, alloc, row);
    for before in 0..400usize {
        if !check_fault(rt, alloc, &row, fault, before) {
            return;
        }
    }
    panic!(rt; "{}", row.name);
}

#[test]
fn each_read_fails(rt: HostRuntime) {
    for number in 0..COUNT {
        check_each(&rt, rt.alloc(), row_at(&rt, number), ToolFault::Read);
    }
}

#[test]
fn each_write_fails(rt: HostRuntime) {
    for number in 0..COUNT {
        check_each(&rt, rt.alloc(), row_at(&rt, number), ToolFault::Write);
    }
}
