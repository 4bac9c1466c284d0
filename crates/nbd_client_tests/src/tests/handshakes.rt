//! Handshakes with servers that say this or that, in pieces and cut at every byte.

use super::bytes_of;
use crate::asserts::same;
use iscsi_test_support::{SURE, Sink, Source, Steps};
use nbd_client::{ExportFault, HandshakeFault, Lost, Opened, RequestSizes, negotiate};
use nbd_wire::{GreetingFault, InfoFault, OptionMagic};
use std::alloc::Global;
use std::process::Abort;

/// What a server of the fixed newstyle handshake says first.
const GREETING: &str = "4e42444d41474943 49484156454f5054 0003 ";

/// The answers of qemu-nbd to GO for a disk of 16 MiB, in its order.
const QEMU: &str = "0003e889045565a9 00000007 00000003 0000000e 0003 00000001 00001000 02000000
    0003e889045565a9 00000007 00000003 0000000c 0000 0000000001000000 0c6d
    0003e889045565a9 00000007 00000001 00000000";

/// Those of nbd-server.
const NBD_SERVER: &str = "0003e889045565a9 00000007 00000003 0000000c 0000 0000000001000000 016d
    0003e889045565a9 00000007 00000001 00000000";

/// What the client says for the export `disk`: its flags and GO.
const ASKED: &str = "00000001 49484156454f5054 00000007 0000000c 00000004 6469736b 0001 0003";

// The answer of a handshake, and what the client said.
fn answered(
    alloc: Global,
    said: &[u8],
    reads: Steps,
    writes: Steps,
) -> (Result<u64, HandshakeFault>, Vec<u8>) {
    let mut reader = Source::new(said, reads);
    let mut writer = Sink::new(alloc, writes);
    let answer = negotiate(alloc, &mut reader, &mut writer, b"disk", true);
    (blocks_of(answer), writer.taken)
}

// How many blocks an export has that is opened.
fn blocks_of(answer: Result<Opened, HandshakeFault>) -> Result<u64, HandshakeFault> {
    match answer {
        Ok(opened) => Ok(opened.blocks),
        Err(fault) => Err(fault),
    }
}

// All that a server says.
fn said(rt: &impl Abort, alloc: Global, answers: &str) -> Vec<u8> {
    let mut bytes = bytes_of(rt, alloc, GREETING);
    bytes
        .extend_from_slice(&bytes_of(rt, alloc, answers))
        .expect(rt, answers);
    bytes
}

#[test]
fn an_export_is_opened_in_any_pieces(rt: HostRuntime) {
    let alloc = rt.alloc();
    let asked = bytes_of(&rt, alloc, ASKED);
    for answers in [QEMU, NBD_SERVER] {
        let said = said(&rt, alloc, answers);
        for step in [1, 7, usize::MAX] {
            let steps = Steps::of(step);
            let (answer, taken) = answered(alloc, &said, steps, steps);
            same(&rt, &answer, &Ok(32_768), &step);
            same(&rt, &taken, &asked, &step);
        }
    }
}

/// What nbd-server says for a disk of 16 MiB: its greeting, and its answers to GO.
const SAID: &[u8] =
    b"NBDMAGICIHAVEOPT\x00\x03\x00\x03\xe8\x89\x04\x55\x65\xa9\x00\x00\x00\x07\x00\x00\x00\x03\x00\x00\x00\x0c\x00\x00\x00\x00\x00\x00\x01\x00\x00\x00\x01\x6d\x00\x03\xe8\x89\x04\x55\x65\xa9\x00\x00\x00\x07\x00\x00\x00\x01\x00\x00\x00\x00";

#[test]
fn refused_memory_is_told(rt: HostRuntime) {
    let alloc = rt.alloc();
    let mut taken = Vec::with_capacity(alloc, 64).expect(&rt, "memory");
    let mut reader = Source::new(SAID, SURE);
    let answer = blocks_of(negotiate(alloc, &mut reader, &mut taken, b"disk", true));
    let is_told = matches!(answer, Ok(32_768) | Err(HandshakeFault::NoMemory));
    assert!(&rt; is_told);
}

#[test]
fn an_end_at_each_byte_is_a_lost_connection(rt: HostRuntime) {
    let alloc = rt.alloc();
    let said = said(&rt, alloc, QEMU);
    let lost = Err(HandshakeFault::Lost(Lost::Closed));
    for n in 0..said.len() {
        let (answer, _) = answered(alloc, &said[..n], SURE, SURE);
        same(&rt, &answer, &lost, &n);
    }
}

#[test]
fn a_failed_read_or_write_is_a_lost_connection(rt: HostRuntime) {
    let alloc = rt.alloc();
    let said = said(&rt, alloc, QEMU);
    let lost = Err(HandshakeFault::Lost(Lost::Failed));
    for before in 0..8 {
        let fails = Steps {
            step: usize::MAX,
            before: Some(before),
        };
        let (answer, _) = answered(alloc, &said, fails, SURE);
        // a greeting, three heads, and what follows two of them
        let due = if before < 6 { lost } else { Ok(32_768) };
        same(&rt, &answer, &due, &before);
    }
    let fails = Steps {
        step: 10,
        before: Some(1),
    };
    let (answer, taken) = answered(alloc, &said, SURE, fails);
    same(&rt, &answer, &lost, &"a write");
    same(&rt, &taken.len(), &10, &"a write");
}

/// What is answered to GO, and the fault.
const REFUSED: &[(&str, HandshakeFault)] = &[
    (
        "0003e889045565a9 00000007 80000006 00000000",
        HandshakeFault::NoExport,
    ),
    (
        "0003e889045565a9 00000007 80000005 00000004 6e6f2021",
        HandshakeFault::WantsTls,
    ),
    (
        "0003e889045565a9 00000007 80000001 00000000",
        HandshakeFault::NoGo,
    ),
    (
        "0003e889045565a9 00000007 80000002 00000000",
        HandshakeFault::Refused(2),
    ),
    (
        "0003e889045565a9 00000007 ffffffff 00000000",
        HandshakeFault::Refused(0x7fff_ffff),
    ),
    (
        "0003e889045565aa 00000007 00000001 00000000",
        HandshakeFault::Magic(OptionMagic {
            magic: 0x0003_e889_0455_65aa,
        }),
    ),
    (
        "0003e889045565a9 00000006 00000001 00000000",
        HandshakeFault::Option(6),
    ),
    (
        "0003e889045565a9 00000007 00000002 00000000",
        HandshakeFault::Answer(2),
    ),
    (
        "0003e889045565a9 00000007 00000003 00002001",
        HandshakeFault::Long(8193),
    ),
    (
        "0003e889045565a9 00000007 00000003 00000001 00",
        HandshakeFault::Info(InfoFault::NoKind),
    ),
    (
        "0003e889045565a9 00000007 00000003 00000002 0000",
        HandshakeFault::Info(InfoFault::Length { kind: 0, length: 2 }),
    ),
    (
        "0003e889045565a9 00000007 00000001 00000000",
        HandshakeFault::NoSize,
    ),
];

#[test]
fn a_handshake_fails_for_its_reason(rt: HostRuntime) {
    let alloc = rt.alloc();
    for (answers, fault) in REFUSED {
        let (answer, _) = answered(alloc, &said(&rt, alloc, answers), SURE, SURE);
        same(&rt, &answer, &Err(*fault), answers);
    }
    let oldstyle = bytes_of(&rt, alloc, "4e42444d41474943 0000420281861253 0000");
    let (answer, taken) = answered(alloc, &oldstyle, SURE, SURE);
    let fault = HandshakeFault::Greeting(GreetingFault::OldStyle);
    same(&rt, &answer, &Err(fault), &"oldstyle");
    same(&rt, &taken.len(), &0, &"oldstyle");
}

#[test]
fn answers_without_an_end_are_given_up(rt: HostRuntime) {
    let alloc = rt.alloc();
    let mut said = said(&rt, alloc, "");
    let other = bytes_of(
        &rt,
        alloc,
        "0003e889045565a9 00000007 00000003 00000002 0001",
    );
    for _ in 0..65 {
        said.extend_from_slice(&other).expect(&rt, "memory");
    }
    let (answer, _) = answered(alloc, &said, SURE, SURE);
    same(&rt, &answer, &Err(HandshakeFault::NoSize), &"65 answers");
}

/// How many blocks an export has, its longest request and whether its requests are wide, whether it has FLUSH, and
/// whether it has WRITE_ZEROES; or why it isn't opened.
type Due = Result<(u64, (u32, bool), bool, bool), ExportFault>;

/// The longest request of an export that takes each of those that may be, in 512 bytes.
const ANY: (u32, bool) = (33_554_432, false);

/// What an export is said to be, size and flags, and the least and the greatest request; and what is
/// made of it, if it is to be written, and if it is to be read alone.
const EXPORTS: &[(&str, &str, Due, Due)] = &[
    (
        "0000000000000200 0005",
        "00000200 02000000",
        Ok((1, ANY, true, false)),
        Ok((1, ANY, true, false)),
    ),
    (
        "0002000000000000 0045",
        "00000001 ffffffff",
        Ok((1 << 40, ANY, true, true)),
        Ok((1 << 40, ANY, true, true)),
    ),
    (
        "0000000001000000 0007",
        "00000001 02000000",
        Err(ExportFault::ReadOnly),
        Ok((32_768, ANY, true, false)),
    ),
    (
        "0000000001000000 0043",
        "00000001 02000000",
        Err(ExportFault::ReadOnly),
        Ok((32_768, ANY, false, true)),
    ),
    (
        "0000000001000000 0001",
        "00000001 02000000",
        Err(ExportFault::NoFlush),
        Ok((32_768, ANY, false, false)),
    ),
    (
        "0000000001000000 0046",
        "00000001 02000000",
        Err(ExportFault::NoFlush),
        Ok((32_768, ANY, false, false)),
    ),
    (
        "0000000000000000 0005",
        "00000001 02000000",
        Err(ExportFault::Empty),
        Err(ExportFault::Empty),
    ),
    (
        "00000000000003e8 0005",
        "00000001 02000000",
        Err(ExportFault::NotWhole),
        Err(ExportFault::NotWhole),
    ),
    (
        "0002000000000200 0005",
        "00000001 02000000",
        Err(ExportFault::TooLarge),
        Err(ExportFault::TooLarge),
    ),
    (
        "0000000001000000 0005",
        "00001000 02000000",
        Err(ExportFault::NoBlock),
        Ok((32_768, (33_554_432, true), true, false)),
    ),
    (
        "0000000001000200 0005",
        "00001000 02000000",
        Err(ExportFault::NoBlock),
        Err(ExportFault::NotWhole),
    ),
    (
        "0000000001000000 0005",
        "00002000 02000000",
        Err(ExportFault::NoBlock),
        Err(ExportFault::WideBlock),
    ),
    (
        "0000000001000000 0005",
        "00000200 00001000",
        Ok((32_768, (4096, false), true, false)),
        Ok((32_768, (4096, false), true, false)),
    ),
    (
        "0000000001000000 0005",
        "00000001 01ffffff",
        Ok((32_768, (33_550_336, false), true, false)),
        Ok((32_768, (33_550_336, false), true, false)),
    ),
    (
        "0000000001000000 0005",
        "00000001 00000fff",
        Err(ExportFault::Small),
        Err(ExportFault::Small),
    ),
];

#[test]
fn an_export_is_judged(rt: HostRuntime) {
    let alloc = rt.alloc();
    for (export, sizes, written, alone) in EXPORTS {
        check_judged(&rt, alloc, (export, sizes), true, *written);
        check_judged(&rt, alloc, (export, sizes), false, *alone);
    }
}

// Opens an export that is said to be so, to be written or not.
fn check_judged(
    rt: &impl Abort,
    alloc: Global,
    (export, sizes): (&str, &str),
    written: bool,
    due: Due,
) {
    let mut said = said(
        rt,
        alloc,
        "0003e889045565a9 00000007 00000003 0000000c 0000",
    );
    let (least, greatest) = sizes.split_once(' ').unwrap_or((sizes, ""));
    let parts = [
        export,
        "0003e889045565a9 00000007 00000003 0000000e 0003",
        least,
        "00001000",
        greatest,
        "0003e889045565a9 00000007 00000001 00000000",
    ];
    for part in parts {
        said.extend_from_slice(&bytes_of(rt, alloc, part))
            .expect(rt, part);
    }
    let (mut reader, mut writer) = (Source::new(&said, SURE), Sink::new(alloc, SURE));
    let answer = negotiate(alloc, &mut reader, &mut writer, b"disk", written);
    let due = match due {
        Ok((blocks, (longest, wide), flushes, write_zeroes)) => Ok(Opened {
            blocks,
            sizes: RequestSizes { longest, wide },
            flushes,
            write_zeroes,
        }),
        Err(fault) => Err(HandshakeFault::Export(fault)),
    };
    same(rt, &answer, &due, &(export, sizes, written));
}
