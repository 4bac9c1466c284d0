//! The lines of connections.

use super::captures::{
    BEGUN, CONFLICT, CUT, FRAGMENT, GAP, LATE, LINK, NOTHING, RESET, REUSED, STRANGE, WHOLE,
};
use super::{bytes_of, ends_so};
use crate::asserts::same_bytes;
use iscsi_captures::{CaptureFile, list_connections};
use std::alloc::Global;
use std::process::Abort;

/// A capture, its lines behind the two ends, and the fault.
const ROWS: &[(&str, &[u8], &str)] = &[
    (WHOLE, b"0 10.0.0.1:40000 10.0.0.2:3260 48 48 login\n", ""),
    (LATE, b"0 10.0.0.1:40000 10.0.0.2:3260 48 0 login\n", ""),
    (
        GAP,
        b"0 10.0.0.1:40000 10.0.0.2:3260 48 0 login gap initiator 48\n",
        "",
    ),
    (
        CONFLICT,
        b"0 10.0.0.1:40000 10.0.0.2:3260 0 0 conflict initiator 12\n",
        "",
    ),
    (
        REUSED,
        b"0 10.0.0.1:40000 10.0.0.2:3260 48 0 login\n1 10.0.0.1:40000 10.0.0.2:3260 48 0\n",
        "",
    ),
    (
        BEGUN,
        b"0 10.0.0.1:40000 10.0.0.2:3260 48 0 login begun\n",
        "",
    ),
    (
        CUT,
        b"0 10.0.0.1:40000 10.0.0.2:3260 20 0 login cut initiator 20\n",
        "",
    ),
    (FRAGMENT, b"0 10.0.0.1:40000 10.0.0.2:3260 0 0\n", ""),
    (STRANGE, b"0 10.0.0.1:40000 10.0.0.2:3260 48 0 login\n", ""),
    (NOTHING, b"", ""),
    ("", b"", "capture: empty"),
    (RESET, b"0 10.0.0.1:40000 10.0.0.2:3260 48 0 login\n", ""),
    (LINK, b"", "capture: link type 147 at 24 (packet 1)"),
];

// One row.
fn is_listed(rt: &impl Abort, alloc: Global, capture: &str, lines: &[u8], fault: &str) {
    let file = bytes_of(rt, alloc, capture);
    let mut source = file.as_slice();
    let mut out = Vec::new(alloc);
    let mut files = CaptureFile::new(alloc).expect(rt, "memory");
    let result = list_connections(alloc, &mut files, &mut source, &mut out);
    same_bytes(rt, &out, lines, &lines);
    ends_so(rt, alloc, result, fault, &lines);
}

#[test]
fn connections_have_their_lines(rt: HostRuntime) {
    for (capture, lines, fault) in ROWS {
        is_listed(&rt, rt.alloc(), capture, lines, fault);
    }
}
