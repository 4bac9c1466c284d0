//! One packet of Ethernet, its header bytes changed, and TCP headers by rows.

use crate::asserts::same;
use crate::tests::bytes_of;
use capture_file::{Address, Endpoint, Packet, PacketFault, Segment, segment_of};
use std::alloc::Global;
use std::process::Abort;

/// A packet of which these bytes were captured.
pub fn packet_of<'a>(link: u16, original: usize, bytes: &'a [u8]) -> Packet<'a> {
    Packet {
        time: 0,
        second: 1_000_000,
        link,
        original: u32::try_from(original).unwrap_or(u32::MAX),
        bytes,
    }
}

/// 192.0.2.1 port 36668 and 192.0.2.2 port 3260.
pub fn ends_4() -> (Endpoint, Endpoint) {
    let source = Address::V4([192, 0, 2, 1]);
    let destination = Address::V4([192, 0, 2, 2]);
    (
        Endpoint {
            address: source,
            port: 36_668,
        },
        Endpoint {
            address: destination,
            port: 3260,
        },
    )
}

/// 2001:db8::1 port 36668 and 2001:db8::2 port 3260.
pub fn ends_6() -> (Endpoint, Endpoint) {
    let source = Address::V6([0x20, 1, 0x0d, 0xb8, 0, 0, 0, 0, 0, 0, 0, 0, 0, 0, 0, 1]);
    let destination = Address::V6([0x20, 1, 0x0d, 0xb8, 0, 0, 0, 0, 0, 0, 0, 0, 0, 0, 0, 2]);
    (
        Endpoint {
            address: source,
            port: 36_668,
        },
        Endpoint {
            address: destination,
            port: 3260,
        },
    )
}

/// A frame of 60 bytes, the last of which is padding.
const FRAME: &str = "02000000 00020200 00000001 0800\
     4500002d 00014000 40060000 c0000201 c0000202\
     8f3c0cbc 11223344 55667788 50180200 00000000 68656c6c 6f 00";

/// What a packet tells.
#[derive(Clone, Copy, PartialEq)]
enum Told {
    Nothing,
    Fault(PacketFault),
    Segment(Endpoint, Endpoint, u32, u32, usize),
}

// What a packet tells.
fn seen(found: Result<Option<Segment<'_>>, PacketFault>) -> Told {
    match found {
        Err(fault) => Told::Fault(fault),
        Ok(None) => Told::Nothing,
        Ok(Some(segment)) => Told::Segment(
            segment.source,
            segment.destination,
            segment.sequence,
            segment.acknowledged,
            segment.bytes.len(),
        ),
    }
}

// What the frame tells with its byte changed.
fn changed(rt: &impl Abort, frame: &mut [u8], at: usize, value: u8) -> Told {
    let Some(byte) = frame.get_mut(at) else {
        panic!(rt; "no byte");
    };
    let was = *byte;
    *byte = value;
    let told = seen(segment_of(packet_of(1, frame.len(), frame)));
    if let Some(byte) = frame.get_mut(at) {
        *byte = was;
    }
    told
}

/// What a byte makes of the segment if it has another value.
#[derive(Clone, Copy)]
enum Makes {
    /// The same.
    Same,
    /// None.
    Nothing,
    /// A fragment.
    Fragment,
    /// Another one.
    Other,
}

impl Makes {
    // Whether this is what a changed byte made, where the frame told the first before.
    fn is_so(self, told: Told, first: Told) -> bool {
        match self {
            Makes::Same => told == first,
            Makes::Nothing => matches!(told, Told::Nothing),
            Makes::Fragment => matches!(told, Told::Fault(PacketFault::Fragment)),
            Makes::Other => matches!(told, Told::Segment(..)) && told != first,
        }
    }
}

/// Bytes of the frame, the first and the last, and what each other value of one makes.
const BYTES: &[(usize, usize, Makes)] = &[
    (0, 11, Makes::Same),
    (12, 13, Makes::Nothing),
    (15, 15, Makes::Same),
    (16, 16, Makes::Nothing),
    (18, 19, Makes::Same),
    (21, 21, Makes::Fragment),
    (22, 22, Makes::Same),
    (23, 23, Makes::Nothing),
    (24, 25, Makes::Same),
    (26, 45, Makes::Other),
    (48, 53, Makes::Same),
    (54, 59, Makes::Same),
];

// Asserts that the frame with a byte changed tells what is due.
fn check_value(rt: &impl Abort, frame: &mut [u8], at: usize, value: u8, makes: Makes) {
    let first = seen(segment_of(packet_of(1, frame.len(), frame)));
    let was = frame.get(at).copied();
    let told = changed(rt, frame, at, value);
    let is_due = makes.is_so(told, first);
    same(rt, &(is_due || was == Some(value)), &true, &(at, value));
}

fn check_values(rt: &impl Abort, frame: &mut [u8], at: usize, makes: Makes) {
    for value in 0..=255u8 {
        check_value(rt, frame, at, value, makes);
    }
}

fn check_span(rt: &impl Abort, frame: &mut [u8], from: usize, to: usize, makes: Makes) {
    for at in from..=to {
        check_values(rt, frame, at, makes);
    }
}

#[test]
fn each_header_byte_is_changed(rt: HostRuntime) {
    let mut frame = bytes_of(&rt, rt.alloc(), FRAME);
    same(&rt, &frame.len(), &60, &"frame");
    for (from, to, makes) in BYTES {
        check_span(&rt, &mut frame, *from, *to, *makes);
    }
}

/// A packet of raw IPv4 as hex text, how many bytes it had on the link, and what it tells. It tells
/// the flags SYN, ACK, FIN and RST, how many bytes there are, and how many are missing.
type Row = (
    &'static str,
    &'static str,
    usize,
    Option<([bool; 4], usize, usize)>,
);

const ROWS: &[Row] = &[
    (
        "a SYN",
        "45000028 00014000 40060000 c0000201 c0000202 8f3c0cbc 11223344 00000000 50020200 00000000",
        40,
        Some(([true, false, false, false], 0, 0)),
    ),
    (
        "a SYN and ACK with an option",
        "4500002c 00014000 40060000 c0000201 c0000202 8f3c0cbc 11223344 00000001 60120200 00000000 020405b4",
        44,
        Some(([true, true, false, false], 0, 0)),
    ),
    (
        "a FIN with two bytes",
        "4500002a 00014000 40060000 c0000201 c0000202 8f3c0cbc 11223344 00000001 50110200 00000000 6162",
        42,
        Some(([false, true, true, false], 2, 0)),
    ),
    (
        "an RST",
        "45000028 00014000 40060000 c0000201 c0000202 8f3c0cbc 11223344 00000001 50040200 00000000",
        40,
        Some(([false, false, false, true], 0, 0)),
    ),
    (
        "the other flags",
        "45000028 00014000 40060000 c0000201 c0000202 8f3c0cbc 11223344 00000001 5fe80200 00000000",
        40,
        Some(([false, false, false, false], 0, 0)),
    ),
    (
        "bytes that were not captured",
        "45000428 00014000 40060000 c0000201 c0000202 8f3c0cbc 11223344 00000001 50100200 00000000 6162",
        1064,
        Some(([false, true, false, false], 2, 1022)),
    ),
    (
        "padding of the link",
        "45000029 00014000 40060000 c0000201 c0000202 8f3c0cbc 11223344 00000001 50100200 00000000 61000000",
        44,
        Some(([false, true, false, false], 1, 0)),
    ),
    (
        "longer than 65,535 bytes: its length says 0",
        "45000000 00014000 40060000 c0000201 c0000202 8f3c0cbc 11223344 00000001 50100200 00000000 6162",
        70_040,
        Some(([false, true, false, false], 2, 69_998)),
    ),
    (
        "a header shorter than 20 bytes",
        "45000028 00014000 40060000 c0000201 c0000202 8f3c0cbc 11223344 00000001 40100200 00000000",
        40,
        None,
    ),
    (
        "a header longer than the segment",
        "45000028 00014000 40060000 c0000201 c0000202 8f3c0cbc 11223344 00000001 60100200 00000000",
        40,
        None,
    ),
    (
        "a segment shorter than a header",
        "45000027 00014000 40060000 c0000201 c0000202 8f3c0cbc 11223344 00000001 50100200 000000",
        39,
        None,
    ),
];

fn check_row(rt: &impl Abort, alloc: Global, row: &Row) {
    let (name, text, original, due) = *row;
    let packet = bytes_of(rt, alloc, text);
    let found = segment_of(packet_of(101, original, &packet)).expect(rt, name);
    let told = found.map(|s| ([s.syn, s.ack, s.fin, s.reset], s.bytes.len(), s.missing));
    same(rt, &told, &due, &name);
}

#[test]
fn headers_of_tcp(rt: HostRuntime) {
    for row in ROWS {
        check_row(&rt, rt.alloc(), row);
    }
}
