//! Files that are refused, and where. A script laid out the bytes.

use super::walk::{End, walked};
use crate::asserts::same;
use crate::tests::bytes_of;
use capture_file::CaptureFault;
use std::alloc::Global;
use std::process::Abort;

/// A file as hex text, the fault, and the offset of the record or block that has it.
type Refused = (&'static str, &'static str, CaptureFault, usize);

const REFUSED: &[Refused] = &[
    (
        "text",
        "74686973 20697320 6e6f2063 61707475 72652066 696c652e",
        CaptureFault::Format,
        0,
    ),
    (
        "gzip",
        "1f8b0800 00000000 00000000 00000000 00000000 00000000",
        CaptureFault::Format,
        0,
    ),
    (
        "a magic number of another kind (modified pcap)",
        "34cdb2a1 02000400 00000000 00000000 00000100 01000000 e8030000 07000000 \
         05000000 3c000000 01020304 05",
        CaptureFault::Format,
        0,
    ),
    (
        "version 1",
        "d4c3b2a1 01000400 00000000 00000000 00000100 01000000 e8030000 07000000 \
         05000000 3c000000 01020304 05",
        CaptureFault::Format,
        0,
    ),
    (
        "a record longer than 1 MiB",
        "d4c3b2a1 02000400 00000000 00000000 00000100 01000000 e8030000 07000000 \
         01001000 3c000000 01020304 05",
        CaptureFault::Length,
        24,
    ),
    (
        "no byte order",
        "0a0d0d0a 1c000000 00000000 01000000 ffffffff ffffffff 1c000000",
        CaptureFault::Format,
        0,
    ),
    (
        "a section shorter than its fields",
        "0a0d0d0a 18000000 4d3c2b1a 01000000 ffffffff ffffffff 1c000000",
        CaptureFault::Length,
        0,
    ),
    (
        "a section that is no multiple of 4",
        "0a0d0d0a 1e000000 4d3c2b1a 01000000 ffffffff ffffffff 1c000000",
        CaptureFault::Length,
        0,
    ),
    (
        "a block shorter than its head",
        "0a0d0d0a 1c000000 4d3c2b1a 01000000 ffffffff ffffffff 1c000000 04000000 \
         08000000 08000000",
        CaptureFault::Length,
        28,
    ),
    (
        "a block that is no multiple of 4",
        "0a0d0d0a 1c000000 4d3c2b1a 01000000 ffffffff ffffffff 1c000000 04000000 \
         0e000000 00000000 0e000000",
        CaptureFault::Length,
        28,
    ),
    (
        "a packet block longer than 1 MiB",
        "0a0d0d0a 1c000000 4d3c2b1a 01000000 ffffffff ffffffff 1c000000 06000000 \
         04001000",
        CaptureFault::Length,
        28,
    ),
    (
        "another length behind a block",
        "0a0d0d0a 1c000000 4d3c2b1a 01000000 ffffffff ffffffff 1c000000 01000000 \
         14000000 01000000 00000000 18000000",
        CaptureFault::Length,
        28,
    ),
    (
        "an interface block shorter than its fields",
        "0a0d0d0a 1c000000 4d3c2b1a 01000000 ffffffff ffffffff 1c000000 01000000 \
         10000000 00000000 10000000",
        CaptureFault::Length,
        28,
    ),
    (
        "an enhanced packet block shorter than its fields",
        "0a0d0d0a 1c000000 4d3c2b1a 01000000 ffffffff ffffffff 1c000000 06000000 \
         1c000000 00000000 00000000 00000000 00000000 1c000000",
        CaptureFault::Length,
        28,
    ),
    (
        "a simple packet block shorter than its fields",
        "0a0d0d0a 1c000000 4d3c2b1a 01000000 ffffffff ffffffff 1c000000 03000000 \
         0c000000 0c000000",
        CaptureFault::Length,
        28,
    ),
    (
        "a packet longer than its block",
        "0a0d0d0a 1c000000 4d3c2b1a 01000000 ffffffff ffffffff 1c000000 01000000 \
         14000000 01000000 00000000 14000000 06000000 28000000 00000000 00000000 \
         00000000 09000000 09000000 00000000 00000000 28000000",
        CaptureFault::Length,
        48,
    ),
    (
        "no interface",
        "0a0d0d0a 1c000000 4d3c2b1a 01000000 ffffffff ffffffff 1c000000 06000000 \
         28000000 00000000 00000000 01000000 05000000 05000000 01020304 05000000 \
         28000000",
        CaptureFault::Interface,
        28,
    ),
    (
        "an interface too far",
        "0a0d0d0a 1c000000 4d3c2b1a 01000000 ffffffff ffffffff 1c000000 01000000 \
         14000000 01000000 00000000 14000000 06000000 28000000 01000000 00000000 \
         01000000 05000000 05000000 01020304 05000000 28000000",
        CaptureFault::Interface,
        48,
    ),
    (
        "an obsolete packet of no interface",
        "0a0d0d0a 1c000000 4d3c2b1a 01000000 ffffffff ffffffff 1c000000 02000000 \
         28000000 00000300 00000000 01000000 05000000 05000000 01020304 05000000 \
         28000000",
        CaptureFault::Interface,
        28,
    ),
    (
        "a simple packet before any interface",
        "0a0d0d0a 1c000000 4d3c2b1a 01000000 ffffffff ffffffff 1c000000 03000000 \
         18000000 05000000 01020304 05000000 18000000",
        CaptureFault::Interface,
        28,
    ),
    (
        "an interface of the section before",
        "0a0d0d0a 1c000000 4d3c2b1a 01000000 ffffffff ffffffff 1c000000 01000000 \
         14000000 01000000 00000000 14000000 0a0d0d0a 1c000000 4d3c2b1a 01000000 \
         ffffffff ffffffff 1c000000 06000000 28000000 00000000 00000000 01000000 \
         05000000 05000000 01020304 05000000 28000000",
        CaptureFault::Interface,
        76,
    ),
];

fn check_refused(rt: &impl Abort, alloc: Global, row: &Refused) {
    let (name, text, fault, at) = *row;
    let file = bytes_of(rt, alloc, text);
    let (packets, end) = walked(rt, alloc, &file, &[], 0, name);
    same(rt, &(packets, end), &(0, End::Fault(fault, at)), &name);
}

#[test]
fn a_file_is_refused_for_its_fault(rt: HostRuntime) {
    for row in REFUSED {
        check_refused(&rt, rt.alloc(), row);
    }
}
