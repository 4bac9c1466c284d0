//! Targets that tell initiators a portal: sessions as dialogues, as in `rows.rt`, and which addresses a
//! portal has. Headers and texts are worked out by hand from RFC 7143, sections 6, 11 and 13 and appendix
//! C; a script counted the bytes of the texts.

use super::dialogues::{LENGTHS, check};
use super::rows::{Dialogue, dialogue_of};
use super::{BY_PDU, NAME, feed_pieces};
use crate::asserts::same;
use iscsi_login::{Phase, Preferences};
use iscsi_portal::{Portal, PortalFault};
use iscsi_target::{Config, Target};
use iscsi_test_support::append_pdu;
use scsi_disk::SparseStore;
use std::alloc::Global;
use std::process::Abort;

/// Sessions of a target whose portal is 192.0.2.7:3260, of group 1.
const TOLD: &str = "* as open-iscsi asks\n\
    I> 43870000 000000e7 40000001 00000000 00000000 00000000 00000001 00000000 00000000 00000000 00000000 00000000 'InitiatorName=iqn.2026-01.example:host|InitiatorAlias=host|SessionType=Discovery|HeaderDigest=None|DataDigest=None|DefaultTime2Wait=2|DefaultTime2Retain=0|IFMarker=No|OFMarker=No|ErrorRecoveryLevel=0|MaxRecvDataSegmentLength=32768|\n\
    T> 23870000 00000095 40000001 00000001 00000000 00000000 00000001 00000001 00000008 00000000 00000000 00000000 'DataDigest=None|DefaultTime2Retain=0|DefaultTime2Wait=2|ErrorRecoveryLevel=0|HeaderDigest=None|IFMarker=No|MaxRecvDataSegmentLength=8192|OFMarker=No|\n\
    = full\n\
    I> 44800000 00000010 00000000 00000000 00000001 ffffffff 00000001 00000002 00000000 00000000 00000000 00000000 'SendTargets=All|\n\
    T> 24800000 00000043 00000000 00000000 00000001 ffffffff 00000002 00000001 00000008 00000000 00000000 00000000 'TargetName=iqn.2026-01.example:disk|TargetAddress=192.0.2.7:3260,1|\n\
    = full\n\
    \n\
    * each key of a discovery session\n\
    I> 43870000 00000111 40000001 00000000 00000000 00000000 00000001 00000000 00000000 00000000 00000000 00000000 'DataPDUInOrder=No|DataSequenceInOrder=No|DefaultTime2Retain=0|DefaultTime2Wait=5|ErrorRecoveryLevel=2|FirstBurstLength=512|ImmediateData=Yes|InitialR2T=No|InitiatorName=iqn.2026-01.example:host|MaxBurstLength=1024|MaxConnections=4|MaxOutstandingR2T=8|SessionType=Discovery|\n\
    T> 23870000 000000f4 40000001 00000001 00000000 00000000 00000001 00000001 00000008 00000000 00000000 00000000 'DataPDUInOrder=Yes|DataSequenceInOrder=Yes|DefaultTime2Retain=0|DefaultTime2Wait=5|ErrorRecoveryLevel=0|FirstBurstLength=512|ImmediateData=Yes|InitialR2T=No|MaxBurstLength=1024|MaxConnections=1|MaxOutstandingR2T=1|MaxRecvDataSegmentLength=8192|\n\
    = full\n\
    \n\
    * in a normal session\n\
    I> 43870000 0000006e 40000001 00000000 00000000 00000000 00000001 00000000 00000000 00000000 00000000 00000000 'AuthMethod=None|InitiatorName=iqn.2026-01.example:host|SessionType=Normal|TargetName=iqn.2026-01.example:disk|\n\
    T> 23870000 00000045 40000001 00000001 00000000 00000000 00000001 00000001 00000008 00000000 00000000 00000000 'AuthMethod=None|MaxRecvDataSegmentLength=8192|TargetPortalGroupTag=1|\n\
    = full\n\
    I> 44800000 0000000d 00000000 00000000 00000001 ffffffff 00000001 00000002 00000000 00000000 00000000 00000000 'SendTargets=|\n\
    T> 24800000 00000043 00000000 00000000 00000001 ffffffff 00000002 00000001 00000008 00000000 00000000 00000000 'TargetName=iqn.2026-01.example:disk|TargetAddress=192.0.2.7:3260,1|\n\
    = full\n\
    I> 44800000 00000025 00000000 00000000 00000002 ffffffff 00000001 00000003 00000000 00000000 00000000 00000000 'SendTargets=iqn.2026-01.example:disk|\n\
    T> 24800000 00000043 00000000 00000000 00000002 ffffffff 00000003 00000001 00000008 00000000 00000000 00000000 'TargetName=iqn.2026-01.example:disk|TargetAddress=192.0.2.7:3260,1|\n\
    = full\n\
    I> 44800000 00000026 00000000 00000000 00000003 ffffffff 00000001 00000004 00000000 00000000 00000000 00000000 'SendTargets=iqn.2026-01.example:other|\n\
    T> 24800000 00000000 00000000 00000000 00000003 ffffffff 00000004 00000001 00000008 00000000 00000000 00000000\n\
    = full\n\
    I> 44800000 0000002d 00000000 00000000 00000004 ffffffff 00000001 00000005 00000000 00000000 00000000 00000000 'A-key=1|SendTargets=All|TargetName=x|X-key=1|\n\
    T> 24800000 0000006b 00000000 00000000 00000004 ffffffff 00000005 00000001 00000008 00000000 00000000 00000000 'TargetName=iqn.2026-01.example:disk|TargetAddress=192.0.2.7:3260,1|A-key=NotUnderstood|X-key=NotUnderstood|\n\
    = full\n\
    I> 44800000 00000010 00000000 00000000 00000005 ffffffff 00000001 00000006 00000000 00000000 00000000 00000000 'A-key=1|X-key=1|\n\
    T> 24800000 00000028 00000000 00000000 00000005 ffffffff 00000006 00000001 00000008 00000000 00000000 00000000 'A-key=NotUnderstood|X-key=NotUnderstood|\n\
    = full";

// A target of this name and group that has just begun, and tells initiators this portal.
fn target_at(
    rt: &impl Abort,
    alloc: Global,
    name: &[u8],
    group: u16,
    portal: &[u8],
) -> Box<Target> {
    let preferences = Preferences::standard();
    let config = Config::new(alloc, name, group, 1, preferences).expect(rt, "a configuration");
    let portal = Portal::new(alloc, portal).expect(rt, "a portal");
    Box::new(alloc, Target::new(alloc, config.with_portal(portal), 1)).expect(rt, "a target")
}

// A session, whose stream comes in pieces of this length.
fn check_told(rt: &impl Abort, alloc: Global, row: &Dialogue<'_>, len: usize) {
    let mut target = target_at(rt, alloc, NAME, 1, b"192.0.2.7:3260");
    let mut store = SparseStore::new(alloc, 2048);
    check(rt, alloc, row.name, len, &mut target, &mut store, row.lines);
}

// The same in pieces of each length.
fn check_lengths(rt: &impl Abort, alloc: Global, row: &Dialogue<'_>) {
    for len in LENGTHS {
        check_told(rt, alloc, row, *len);
    }
}

#[test]
fn told_portals(rt: HostRuntime) {
    for row in TOLD.split("\n\n") {
        check_lengths(&rt, rt.alloc(), &dialogue_of(&rt, row));
    }
}

/// A login that takes the shortest segments, and then a request for all targets.
const SHORTEST: &str =
    "43870000 0000006a 40000001 00000000 00000000 00000000 00000001 00000000 00000000 00000000 00000000 00000000 'AuthMethod=None|InitiatorName=iqn.2026-01.example:host|MaxRecvDataSegmentLength=512|SessionType=Discovery|";

const ALL: &str =
    "44800000 00000010 00000000 00000000 00000001 ffffffff 00000001 00000002 00000000 00000000 00000000 00000000 'SendTargets=All|";

// What a target with the longest of each answers to SHORTEST and to ALL, as bytes.
fn longest_answer(rt: &impl Abort, alloc: Global) -> Vec<u8> {
    let mut target = target_at(rt, alloc, &[b'n'; 223], 65_535, &[b'p'; 255]);
    let mut store = SparseStore::new(alloc, 2048);
    let mut stream = Vec::new(alloc);
    append_pdu(SHORTEST, &mut stream).expect(rt, "a login");
    append_pdu(ALL, &mut stream).expect(rt, "a request");
    let mut out = Vec::new(alloc);
    let phase = feed_pieces(&mut target, &stream, BY_PDU, &mut store, &mut out);
    same(rt, &phase, &Ok(Phase::Full), &"the session goes on");
    out
}

/// The longest name and address go into the shortest segment that an initiator may ask for.
#[test]
fn the_longest_address(rt: HostRuntime) {
    let out = longest_answer(&rt, rt.alloc());
    let mut due = Vec::new(rt.alloc());
    due.extend_from_slice(b"TargetName=").expect(&rt, "memory");
    due.extend_from_slice(&[b'n'; 223]).expect(&rt, "memory");
    due.extend_from_slice(b"\0TargetAddress=")
        .expect(&rt, "memory");
    due.extend_from_slice(&[b'p'; 255]).expect(&rt, "memory");
    // 511 bytes, and one that fills up the last four.
    due.extend_from_slice(b",65535\0\0").expect(&rt, "memory");
    let told = out.get(out.len().saturating_sub(512)..).unwrap_or_default();
    same(&rt, &told, &due.as_slice(), &"the text");
}

/// Bytes, and the fault of a portal of that address.
const PORTALS: &[(&str, &[u8], Option<PortalFault>)] = &[
    ("IPv4", b"192.0.2.7:3260", None),
    ("IPv6", b"[2001:db8::7]:3260", None),
    ("a name", b"disk.example:3260", None),
    ("a byte", b"!", None),
    ("255 bytes", &[b'~'; 255], None),
    ("256 bytes", &[b'~'; 256], Some(PortalFault::BadPortal)),
    ("nothing", b"", Some(PortalFault::BadPortal)),
    ("a group", b"192.0.2.7:3260,1", Some(PortalFault::BadPortal)),
    ("a comma alone", b",", Some(PortalFault::BadPortal)),
    ("a blank", b"192.0.2.7 3260", Some(PortalFault::BadPortal)),
    (
        "a byte 00",
        b"192.0.2.7:3260\0",
        Some(PortalFault::BadPortal),
    ),
    ("past ASCII", b"a\x7f", Some(PortalFault::BadPortal)),
];

#[test]
fn portals(rt: HostRuntime) {
    for (what, bytes, due) in PORTALS {
        let portal = Portal::new(rt.alloc(), bytes);
        same(&rt, &portal.err(), due, what);
    }
}
