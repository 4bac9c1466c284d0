//! Memory that is refused, for `rt try --test --fail-alloc`.

use crate::asserts::same;
use capture_file::{Capture, CaptureFault, Step};
use std::process::Abort;

// How many bytes a step passes over.
fn skipped(step: Result<Step<'_>, CaptureFault>) -> Result<u32, CaptureFault> {
    match step? {
        Step::Skip(count) => Ok(count),
        _ => Err(CaptureFault::Format),
    }
}

// A step that passes over bytes, once more where memory ran out.
fn skipped_at_last(rt: &impl Abort, capture: &mut Capture, bytes: &[u8], due: u32) {
    let first = skipped(capture.step(bytes));
    if first.is_err() {
        same(rt, &first, &Err(CaptureFault::NoMemory), &"fault");
        same(rt, &skipped(capture.step(bytes)), &Ok(due), &"once more");
    } else {
        same(rt, &first, &Ok(due), &"at once");
    }
}

/// A section header, high bytes first.
const SECTION: &[u8] = b"\x0a\x0d\x0d\x0a\0\0\0\x1c\x1a\x2b\x3c\x4d\0\x01\0\0\
    \xff\xff\xff\xff\xff\xff\xff\xff\0\0\0\x1c";
/// An interface of Ethernet, with no snap length.
const INTERFACE: &[u8] = b"\0\0\0\x01\0\0\0\x14\0\x01\0\0\0\0\0\0\0\0\0\x14";
/// A simple packet block with one byte.
const PACKET: &[u8] = b"\0\0\0\x03\0\0\0\x14\0\0\0\x01a\0\0\0\0\0\0\x14";

/// An interface that found no memory is read by the next call.
#[test]
fn refused_memory_loses_no_interface(rt: HostRuntime) {
    let mut capture = Capture::new(rt.alloc());
    skipped_at_last(&rt, &mut capture, SECTION, 28);
    skipped_at_last(&rt, &mut capture, INTERFACE, 20);
    let told = match capture.step(PACKET) {
        Ok(Step::Packet(packet, length)) => Some((packet.bytes.len(), length)),
        _ => None,
    };
    same(&rt, &told, &Some((1, 20)), &"packet");
}
