//! Captures that are cut off, and reads and writes that fail.

use super::captures::{LOGIN, WHOLE};
use super::{bytes_of, normalise};
use crate::asserts::{same, same_bytes};
use iscsi_captures::{CaptureFile, CapturesFault, End, Wanted, list_connections};
use iscsi_test_support::{Sink, Source, Steps};
use std::alloc::Global;
use std::process::Abort;

/// The first direction of the capture.
const WANTED: Wanted = Wanted {
    connection: 0,
    end: End::Initiator,
};

// Where the record begins in which the capture is cut off after this many bytes, if it is. Records
// end behind 24, 80, 136, 240 and 344 bytes.
fn cut_record(len: usize) -> Option<u64> {
    match len {
        0 | 24 | 80 | 136 | 240 | 344 => None,
        1..24 => Some(0),
        24..80 => Some(24),
        80..136 => Some(80),
        136..240 => Some(136),
        _ => Some(240),
    }
}

// Where the file is cut off, as the fault says.
fn place_of(ended: Result<(), CapturesFault>) -> Option<u64> {
    match ended {
        Err(CapturesFault::Truncated { at }) => Some(at),
        _ => None,
    }
}

// What is written of the capture with this many bytes.
fn written_by(len: usize, login: &[u8]) -> &[u8] {
    if len < 240 { &login[..0] } else { login }
}

// The capture cut off after this many bytes: either the request was written, or nothing.
fn is_cut_off(rt: &impl Abort, alloc: Global, file: &[u8], login: &[u8]) {
    let mut source = file;
    let mut out = Vec::new(alloc);
    let result = normalise(alloc, &mut source, WANTED, &mut out);
    same(rt, &place_of(result), &cut_record(file.len()), &file.len());
    same_bytes(rt, &out, written_by(file.len(), login), &file.len());
}

#[test]
fn a_capture_that_is_cut_off_says_so(rt: HostRuntime) {
    let file = bytes_of(&rt, rt.alloc(), WHOLE);
    let login = bytes_of(&rt, rt.alloc(), LOGIN);
    for length in 0..=file.len() {
        is_cut_off(&rt, rt.alloc(), &file[..length], &login);
    }
}

// A section of pcapng, and a block of a type that is passed over, with 12 bytes of its own.
const PASSED: &str = "0a0d0d0a1c0000004d3c2b1a01000000ffffffffffffffff1c000000\
    ad0b00001800000000112233445566778899aabb18000000";

#[test]
fn a_block_that_is_passed_over_may_be_cut_off(rt: HostRuntime) {
    let file = bytes_of(&rt, rt.alloc(), PASSED);
    for length in 29..file.len() {
        let mut source = &file[..length];
        let mut out = Vec::new(rt.alloc());
        let mut files = CaptureFile::new(rt.alloc()).expect(&rt, "memory");
        let result = list_connections(rt.alloc(), &mut files, &mut source, &mut out);
        let due = Err(CapturesFault::Truncated { at: 28 });
        same(&rt, &result, &due, &length);
    }
}

#[test]
fn a_read_that_fails_is_told(rt: HostRuntime) {
    let file = bytes_of(&rt, rt.alloc(), WHOLE);
    let login = bytes_of(&rt, rt.alloc(), LOGIN);
    let steps = Steps {
        step: 250,
        before: Some(1),
    };
    let mut out = Vec::new(rt.alloc());
    let mut source = Source::new(&file, steps);
    let result = normalise(rt.alloc(), &mut source, WANTED, &mut out);
    same(&rt, &result, &Err(CapturesFault::Read), &"stream");
    same_bytes(&rt, &out, &login, &"stream");
    let mut source = Source::new(&file, steps);
    let mut files = CaptureFile::new(rt.alloc()).expect(&rt, "memory");
    let result = list_connections(rt.alloc(), &mut files, &mut source, &mut out);
    same(&rt, &result, &Err(CapturesFault::Read), &"lines");
}

#[test]
fn a_write_that_fails_is_told(rt: HostRuntime) {
    let file = bytes_of(&rt, rt.alloc(), WHOLE);
    let steps = Steps {
        step: 10,
        before: Some(1),
    };
    let mut sink = Sink::new(rt.alloc(), steps);
    let mut source = file.as_slice();
    let result = normalise(rt.alloc(), &mut source, WANTED, &mut sink);
    same(&rt, &result, &Err(CapturesFault::Write), &"stream");
    same(&rt, &sink.taken.len(), &10, &"stream");
}
