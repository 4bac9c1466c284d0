//! Memory that is refused, for `rt try --test --fail-alloc`: nothing but its want may come in place
//! of bytes.

use crate::asserts::same;
use iscsi_chap::{read_binary, write_binary};
use std::alloc::Global;
use std::process::Abort;

// The bytes that a value writes, once more where memory ran out.
fn read_at_last(rt: &impl Abort, alloc: Global, text: &[u8]) -> Option<Vec<u8>> {
    match read_binary(alloc, text) {
        Ok(bytes) => bytes,
        Err(_) => read_binary(alloc, text).expect(rt, "once more"),
    }
}

fn check_read(rt: &impl Abort, alloc: Global, text: &[u8]) {
    let bytes = read_at_last(rt, alloc, text).expect(rt, "bytes");
    same(rt, &bytes.as_slice(), &b"\x01\x23\x45".as_slice(), &text);
}

#[test]
fn refused_memory_changes_no_byte(rt: HostRuntime) {
    check_read(&rt, rt.alloc(), b"0x12345");
    check_read(&rt, rt.alloc(), b"0bASNF");
}

// Writes a value, once more where memory ran out: then nothing was written.
fn write_at_last(rt: &impl Abort, out: &mut Vec<u8>) {
    let before = out.len();
    if write_binary(b"\x01\x23\x45", out).is_err() {
        same(rt, &out.len(), &before, &"length");
        write_binary(b"\x01\x23\x45", out).expect(rt, "once more");
    }
}

#[test]
fn refused_memory_leaves_out_as_it_was(rt: HostRuntime) {
    let mut out = Vec::new(rt.alloc());
    write_at_last(&rt, &mut out);
    same(&rt, &out.as_slice(), &b"0x012345".as_slice(), &"hex");
}
