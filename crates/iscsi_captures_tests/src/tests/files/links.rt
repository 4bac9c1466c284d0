//! One segment inside each link and network header, and what has none. The bytes were written by
//! hand from the tables of the standards. The file is long for its rows.

use super::segments::{ends_4, ends_6, packet_of};
use crate::asserts::{same, same_bytes};
use crate::tests::bytes_of;
use capture_file::{Endpoint, PacketFault, Segment, segment_of};
use std::alloc::Global;
use std::process::Abort;

/// 192.0.2.1 port 36668 to 192.0.2.2 port 3260.
const IP_4: &str = "4500002d 00014000 40060000 c0000201 c0000202";
/// The same as an option of four bytes would have it.
const IP_4_OPTION: &str = "46000031 00014000 40060000 c0000201 c0000202 01010100";
/// 2001:db8::1 port 36668 to 2001:db8::2 port 3260.
const IP_6: &str =
    "60000000 00190640 20010db8 00000000 00000000 00000001 20010db8 00000000 00000000 00000002";
/// The same with hop-by-hop options, routing, a fragment header of a whole packet, and options for
/// the destination.
const IP_6_LONG: &str =
    "60000000 00390040 20010db8 00000000 00000000 00000001 20010db8 00000000 00000000 00000002 \
     2b000104 00000000 2c000000 00000000 3c000000 00000009 06000104 00000000";
/// An Ethernet header of IPv4.
const ETHERNET: &str = "02000000 00020200 00000001 0800";
/// Outer packets of GRE, from 10.0.0.1 to 10.0.0.2, and of IPv6.
const GRE_4: &str = "45000049 00010000 402f0000 0a000001 0a000002";

const GRE_6: &str =
    "60000000 00432f40 20010db8 00000000 00000000 0000000a 20010db8 00000000 00000000 0000000b";
/// Sequence number 11223344, acknowledged 55667788, flags PSH and ACK, and five bytes.
const TCP: &str = "8f3c0cbc 11223344 55667788 50180200 00000000 68656c6c 6f";

/// A packet: its link type, and what stands before its TCP header; whether it is one of IPv6.
type Row = (&'static str, u16, &'static [&'static str], bool);

const ROWS: &[Row] = &[
    (
        "Ethernet",
        1,
        &["02000000 00020200 00000001 0800", IP_4],
        false,
    ),
    (
        "Ethernet with IPv6",
        1,
        &["02000000 00020200 00000001 86dd", IP_6],
        true,
    ),
    (
        "a VLAN tag",
        1,
        &["02000000 00020200 00000001 81000005 0800", IP_4],
        false,
    ),
    (
        "four VLAN tags of three kinds",
        1,
        &[
            "02000000 00020200 00000001 88a80001 81000002 91000003 81000004 0800",
            IP_4,
        ],
        false,
    ),
    (
        "Linux cooked",
        113,
        &["00000304 00060000 00000000 00000800", IP_4],
        false,
    ),
    (
        "Linux cooked, IPv6",
        113,
        &["00000304 00060000 00000000 000086dd", IP_6],
        true,
    ),
    (
        "Linux cooked, version 2",
        276,
        &["08000000 00000001 03040006 00000000 00000000", IP_4],
        false,
    ),
    (
        "Linux cooked, version 2, IPv6",
        276,
        &["86dd0000 00000001 03040006 00000000 00000000", IP_6],
        true,
    ),
    ("loopback, low byte first", 0, &["02000000", IP_4], false),
    ("loopback, high byte first", 0, &["00000002", IP_4], false),
    ("loopback of OpenBSD", 108, &["00000002", IP_4], false),
    (
        "loopback, IPv6 as FreeBSD has it",
        0,
        &["1c000000", IP_6],
        true,
    ),
    (
        "loopback, IPv6 as NetBSD has it",
        0,
        &["00000018", IP_6],
        true,
    ),
    (
        "loopback, IPv6 as Darwin has it",
        0,
        &["1e000000", IP_6],
        true,
    ),
    ("raw IP", 101, &[IP_4], false),
    ("raw IP, IPv6", 101, &[IP_6], true),
    ("raw IPv4", 228, &[IP_4], false),
    ("raw IPv6", 229, &[IP_6], true),
    ("an option of IPv4", 101, &[IP_4_OPTION], false),
    ("extension headers of IPv6", 101, &[IP_6_LONG], true),
    ("raw IP of BSD", 12, &[IP_4], false),
    ("raw IP of OpenBSD", 14, &[IP_6], true),
    // The length of an outer packet of GRE is not looked at.
    ("IP in GRE", 101, &[GRE_4, "00000800", IP_4], false),
    (
        "IPv6 in GRE with a checksum, a key and a number",
        101,
        &[GRE_4, "b00086dd 00000000 00000007 00000009", IP_6],
        true,
    ),
    (
        "Ethernet in GRE over IPv6",
        101,
        &[GRE_6, "20006558 00000007", ETHERNET, IP_4],
        false,
    ),
    (
        "ERSPAN without a header",
        101,
        &[GRE_4, "000088be", ETHERNET, IP_4],
        false,
    ),
    (
        "ERSPAN with one",
        101,
        &[GRE_4, "100088be 00000001 10000001 00000000", ETHERNET, IP_4],
        false,
    ),
    (
        "ERSPAN of the third kind",
        101,
        &[
            GRE_4,
            "100022eb 00000001 20000001 00000000 00000000",
            ETHERNET,
            IP_4,
        ],
        false,
    ),
    (
        "the same with eight bytes more",
        101,
        &[
            GRE_4,
            "100022eb 00000001 20000001 00000000 00000001 0000000000000000",
            ETHERNET,
            IP_4,
        ],
        false,
    ),
    (
        "VXLAN",
        1,
        &[
            ETHERNET,
            "45000067 00014000 40110000 0a000001 0a000002 c00012b5 00530000 08000000 00000500",
            ETHERNET,
            IP_4,
        ],
        false,
    ),
];

/// The row's packet, with what follows its network header.
fn whole(rt: &impl Abort, alloc: Global, parts: &[&str], rest: &str) -> Vec<u8> {
    let mut packet = Vec::new(alloc);
    for part in parts {
        packet
            .extend_from_slice(&bytes_of(rt, alloc, part))
            .expect(rt, "memory");
    }
    packet
        .extend_from_slice(&bytes_of(rt, alloc, rest))
        .expect(rt, "memory");
    packet
}

// Asserts that a segment is that of the rows, with so many of its five bytes.
fn same_segment(
    rt: &impl Abort,
    segment: Segment<'_>,
    ends: (Endpoint, Endpoint),
    count: usize,
    row: &str,
) {
    let is_between = (segment.source, segment.destination) == ends;
    same(rt, &is_between, &true, &row);
    same(
        rt,
        &(segment.sequence, segment.acknowledged),
        &(0x1122_3344, 0x5566_7788),
        &row,
    );
    let flags = (segment.syn, segment.ack, segment.fin, segment.reset);
    same(rt, &flags, &(false, true, false, false), &row);
    same_bytes(
        rt,
        segment.bytes,
        b"hello".get(..count).unwrap_or(b""),
        &row,
    );
    same(rt, &segment.missing, &(5 - count.min(5)), &row);
}

// The first bytes of a packet: `Cut` before the end of its TCP header, then a segment.
fn check_cut(rt: &impl Abort, row: &Row, packet: &[u8], len: usize) {
    let (name, link, _, six) = *row;
    let bytes = packet.get(..len).expect(rt, name);
    let headers = packet.len().saturating_sub(5);
    let found = segment_of(packet_of(link, packet.len(), bytes));
    if len < headers {
        same(rt, &found.map(|_| ()), &Err(PacketFault::Cut), &(name, len));
        return;
    }
    let segment = found.ok().flatten().expect(rt, name);
    let ends = if six { ends_6() } else { ends_4() };
    same_segment(rt, segment, ends, len - headers, name);
}

fn check_row(rt: &impl Abort, alloc: Global, row: &Row) {
    let packet = whole(rt, alloc, row.2, TCP);
    for len in 0..packet.len() {
        check_cut(rt, row, &packet, len);
    }
    check_cut(rt, row, &packet, packet.len());
}

#[test]
fn a_segment_is_found_in_every_link(rt: HostRuntime) {
    for row in ROWS {
        check_row(&rt, rt.alloc(), row);
    }
}

/// A packet, and what it tells in place of a segment.
type Other = (
    &'static str,
    u16,
    &'static [&'static str],
    Result<(), PacketFault>,
);

const OTHERS: &[Other] = &[
    ("ARP", 1, &["02000000 00020200 00000001 0806", IP_4], Ok(())),
    (
        "five VLAN tags",
        1,
        &[
            "02000000 00020200 00000001 81000001 81000002 81000003 81000004 81000005 0800",
            IP_4,
        ],
        Ok(()),
    ),
    (
        "ARP, Linux cooked",
        113,
        &["00000304 00060000 00000000 00000806", IP_4],
        Ok(()),
    ),
    ("another family", 0, &["07000000", IP_4], Ok(())),
    (
        "another link type",
        147,
        &[IP_4],
        Err(PacketFault::Link(147)),
    ),
    (
        "another version of IP",
        101,
        &["5500002d 00014000 40060000 c0000201 c0000202"],
        Ok(()),
    ),
    (
        "UDP",
        101,
        &["4500002d 00014000 40110000 c0000201 c0000202"],
        Ok(()),
    ),
    (
        "UDP to another port",
        101,
        &["4500002d 00014000 40110000 c0000201 c0000202 c00012b6 00000000 08000000 00000500"],
        Ok(()),
    ),
    ("ARP in GRE", 101, &[GRE_4, "00000806", IP_4], Ok(())),
    (
        "GRE of another version",
        101,
        &[GRE_4, "00010800", IP_4],
        Ok(()),
    ),
    (
        "a fragment of GRE",
        101,
        &[
            "45000049 00012000 402f0000 0a000001 0a000002",
            "00000800",
            IP_4,
        ],
        Err(PacketFault::Fragment),
    ),
    (
        "a header of IPv4 shorter than 20 bytes",
        101,
        &["4400002d 00014000 40060000 c0000201 c0000202"],
        Ok(()),
    ),
    (
        "a length shorter than the header",
        101,
        &["45000013 00014000 40060000 c0000201 c0000202"],
        Ok(()),
    ),
    (
        "a length past the packet",
        101,
        &["4500002e 00014000 40060000 c0000201 c0000202"],
        Ok(()),
    ),
    (
        "the first fragment",
        101,
        &["4500002d 00012000 40060000 c0000201 c0000202"],
        Err(PacketFault::Fragment),
    ),
    (
        "the last fragment",
        101,
        &["4500002d 00010001 40060000 c0000201 c0000202"],
        Err(PacketFault::Fragment),
    ),
    (
        "UDP over IPv6",
        101,
        &[
            "60000000 00191140 20010db8 00000000 00000000 00000001 20010db8 00000000 00000000 00000002",
        ],
        Ok(()),
    ),
    (
        "a fragment of IPv6",
        101,
        &[
            "60000000 00212c40 20010db8 00000000 00000000 00000001 20010db8 00000000 00000000 00000002",
            "06000001 00000009",
        ],
        Err(PacketFault::Fragment),
    ),
    (
        "a length past the packet, IPv6",
        101,
        &[
            "60000000 001a0640 20010db8 00000000 00000000 00000001 20010db8 00000000 00000000 00000002",
        ],
        Ok(()),
    ),
    (
        "extension headers past the length",
        101,
        &[
            "60000000 00100040 20010db8 00000000 00000000 00000001 20010db8 00000000 00000000 00000002",
            "06020000 00000000 00000000 00000000 00000000 00000000",
        ],
        Ok(()),
    ),
];

// What a packet tells in place of a segment; a segment is as unexpected as another fault.
fn other(found: Result<Option<Segment<'_>>, PacketFault>) -> Result<(), PacketFault> {
    match found? {
        None => Ok(()),
        Some(_) => Err(PacketFault::Link(0)),
    }
}

#[test]
fn other_packets_have_none(rt: HostRuntime) {
    for (name, link, parts, due) in OTHERS {
        let packet = whole(&rt, rt.alloc(), parts, TCP);
        let found = segment_of(packet_of(*link, packet.len(), &packet));
        same(&rt, &other(found), due, name);
    }
}
