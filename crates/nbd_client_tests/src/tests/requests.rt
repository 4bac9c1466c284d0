//! A medium over a line whose server says what a row says. One file, since the rows share that server.

ghost use Rattle.std.specs.Prelude.{◌≡◌, ◌<◌, ◌≤◌, [], OnOk};
ghost use Rattle.scsi_disk.specs.Disk.{most_blocks};
ghost use Rattle.nbd_client.specs.Sizes.{AreSizes};

use super::bytes_of;
use crate::asserts::same;
use nbd_client::{Line, Lost, MediumFault, NbdMedium, Report, RequestSizes};
use nbd_wire::ReplyMagic;
use scsi_disk::StoreFault;
use scsi_file::Medium;
use std::alloc::Global;
use std::process::Abort;

/// A line to a server that says these bytes, whatever it is asked.
#[derive(Drop)]
struct Scripted<'a> {
    /// What it says from now on.
    rest: &'a [u8],
    /// The heads that it was sent, one after another.
    heads: Vec<u8>,
    /// How many bytes it was sent behind them.
    behind: usize,
    blocks: u64,
    sizes: RequestSizes,
    calls: u64,
    ghost some: { 0 < blocks },
    ghost few: { blocks ≤ most_blocks },
    ghost fit: { AreSizes sizes blocks },
}

impl<'a> Scripted<'a> {
    fn new(alloc: Global, rest: &'a [u8]) -> Scripted<'a> {
        Scripted {
            rest,
            heads: Vec::new(alloc),
            behind: 0,
            blocks: 1 << 20,
            sizes: RequestSizes {
                longest: 1 << 25,
                wide: false,
            },
            calls: 0,
        }
    }

    // Counts a call.
    fn count(&mut self) -> Result<(), Lost>
        ensures counted { OnOk result (self.old.calls < self.new.calls) }
        ensures kept { self.old.calls ≤ self.new.calls }
        ensures blocks { self.new.blocks ≡ self.old.blocks }
        ensures sizes { self.new.sizes ≡ self.old.sizes }
    {
        if self.calls == u64::MAX {
            return Err(Lost::Failed);
        }
        self.calls += 1;
        Ok(())
    }
}

impl Line for Scripted<'_> {
    ghost use Rattle.scsi_file.specs.HostFile.{unknown};
    ghost use Rattle.scsi_file.proofs.ZeroLemmas.{unknown_is};

    ghost disk = { λ s. unknown s.blocks };

    ghost kept = { λ s n c. Unit {0} };

    ghost pending = { λ _. [] };

    ghost untold = { λ s. s.calls };

    ghost sound = { λ s. unknown_is s.blocks s.some };

    ghost few = { λ s. s.few };

    ghost sizes = { λ s. s.sizes };

    ghost fit = { λ s. s.fit };

    ghost stays = { λ s n. tt };

    fn blocks(&self) -> u64 {
        self.blocks
    }

    fn sizes(&self) -> RequestSizes {
        self.sizes
    }

    fn send(&mut self, head: &[u8], bytes: &[u8]) -> Result<(), Lost> {
        self.count()?;
        self.behind = self.behind.saturating_add(bytes.len());
        match self.heads.extend_from_slice(head) {
            Ok(()) => Ok(()),
            Err(_) => Err(Lost::Failed),
        }
    }

    fn receive(&mut self, out: &mut [u8]) -> Result<(), Lost> {
        self.count()?;
        if out.len() > self.rest.len() {
            return Err(Lost::Closed);
        }
        let (given, rest) = self.rest.split_at(out.len());
        out.copy_from_slice(given);
        self.rest = rest;
        Ok(())
    }
}

/// Keeps what it is told.
#[derive(Drop)]
struct Told {
    first: Option<MediumFault>,
    count: u32,
}

impl Report for &mut Told {
    fn report(&mut self, fault: MediumFault) {
        self.first = self.first.or(Some(fault));
        self.count = self.count.saturating_add(1);
    }
}

/// What came of a write of block 2, of a sync, and of a read of block 2; twice.
#[derive(Drop)]
struct Came<'a> {
    answers: [Result<(), StoreFault>; 6],
    fault: Option<MediumFault>,
    told: Told,
    line: Scripted<'a>,
}

// The write, the sync and the read, twice.
fn came_of<'a>(alloc: Global, said: &'a [u8]) -> Came<'a> {
    let mut told = Told {
        first: None,
        count: 0,
    };
    let mut medium = NbdMedium::new(Scripted::new(alloc, said), &mut told);
    let mut answers = [Ok(()); 6];
    for turn in answers.chunks_exact_mut(3) {
        turn.copy_from_slice(&turn_of(&mut medium));
    }
    let fault = medium.fault();
    let line = medium.into_line();
    Came {
        answers,
        fault,
        told,
        line,
    }
}

// Once.
fn turn_of<R: Report>(medium: &mut NbdMedium<Scripted<'_>, R>) -> [Result<(), StoreFault>; 3] {
    let mut block = [0x5a; 512];
    if medium.blocks() < 3 {
        return [Err(StoreFault::NoMemory); 3];
    }
    let write = medium.write_at(2, &block);
    let sync = medium.sync();
    let read = medium.read_at(2, &mut block);
    [write, sync, read]
}

const LOST: Result<(), StoreFault> = Err(StoreFault::Device);

const DONE: Result<(), StoreFault> = Ok(());

/// Whatever goes well: a reply to a write, to a sync, and to a read; `BLOCK` stands for 512 bytes.
const WELL: &str = "67446698 00000000 0000000000000001
    67446698 00000000 0000000000000002
    67446698 00000000 0000000000000003 BLOCK";

/// What the server says, what comes of the six calls, why the medium ends, and how many requests it
/// was sent.
type Row = (
    &'static str,
    [Result<(), StoreFault>; 6],
    Option<MediumFault>,
    usize,
);

const ROWS: &[Row] = &[
    (
        "67446698 00000000 0000000000000001
        67446698 00000000 0000000000000002
        67446698 00000000 0000000000000003 BLOCK
        67446698 00000000 0000000000000004
        67446698 00000000 0000000000000005
        67446698 00000000 0000000000000006 BLOCK",
        [DONE; 6],
        None,
        6,
    ),
    // A refused write or read is no end; a read that is refused has no block behind it.
    (
        "67446698 0000001c 0000000000000001
        67446698 00000000 0000000000000002
        67446698 00000005 0000000000000003
        67446698 00000000 0000000000000004
        67446698 00000000 0000000000000005
        67446698 00000000 0000000000000006 BLOCK",
        [LOST, DONE, LOST, DONE, DONE, DONE],
        None,
        6,
    ),
    // A refused sync is.
    (
        "67446698 00000000 0000000000000001
        67446698 00000005 0000000000000002
        67446698 00000000 0000000000000003 BLOCK",
        [DONE, LOST, LOST, LOST, LOST, LOST],
        Some(MediumFault::NotSynced(5)),
        2,
    ),
    // The cookie of an earlier request, of a later one, and the other byte order.
    (
        "67446698 00000000 0000000000000001
        67446698 00000000 0000000000000001",
        [DONE, LOST, LOST, LOST, LOST, LOST],
        Some(MediumFault::Cookie),
        2,
    ),
    (
        "67446698 00000000 0000000000000002",
        [LOST; 6],
        Some(MediumFault::Cookie),
        1,
    ),
    (
        "67446698 00000000 0100000000000000",
        [LOST; 6],
        Some(MediumFault::Cookie),
        1,
    ),
    // An error with another cookie is none of this request.
    (
        "67446698 00000005 0000000000000002",
        [LOST; 6],
        Some(MediumFault::Cookie),
        1,
    ),
    // A structured reply, and a request.
    (
        "668e33ef 00010000 0000000000000001",
        [LOST; 6],
        Some(MediumFault::Reply(ReplyMagic { magic: 0x668e_33ef })),
        1,
    ),
    (
        "67446698 00000000 0000000000000001
        67446698 00000000 0000000000000002
        25609513 00000000 0000000000000003 BLOCK",
        [DONE, DONE, LOST, LOST, LOST, LOST],
        Some(MediumFault::Reply(ReplyMagic { magic: 0x2560_9513 })),
        3,
    ),
];

// The bytes of a row.
fn said(rt: &impl Abort, alloc: Global, text: &str) -> Vec<u8> {
    let mut bytes = Vec::new(alloc);
    for line in text.lines() {
        bytes
            .extend_from_slice(&bytes_of(rt, alloc, line.trim_end_matches("BLOCK")))
            .expect(rt, line);
        if line.ends_with("BLOCK") {
            bytes.extend_from_slice(&[0x5a; 512]).expect(rt, line);
        }
    }
    bytes
}

#[test]
fn a_reply_is_taken_for_what_it_says(rt: HostRuntime) {
    let alloc = rt.alloc();
    for row in ROWS {
        let (text, answers, fault, requests) = row;
        let said = said(&rt, alloc, text);
        let came = came_of(alloc, &said);
        same(&rt, &came.answers, answers, text);
        same(&rt, &came.fault, fault, text);
        same(&rt, &came.line.heads.len(), &(requests * 28), text);
        check_told(&rt, &came.told, *fault, text);
    }
}

// What was told: each fault, once.
fn check_told(rt: &impl Abort, told: &Told, fault: Option<MediumFault>, row: &str) {
    same(rt, &told.first, &fault, &row);
    same(rt, &told.count, &(fault.is_some() as u32), &row);
}

#[test]
fn each_error_number_fails_one_request(rt: HostRuntime) {
    let alloc = rt.alloc();
    for error in [1, 5, 12, 22, 28, 75, 95, 108, u32::MAX] {
        let mut bytes = said(&rt, alloc, "67446698 00000000 0000000000000001");
        if bytes.len() >= 8 {
            bytes[4..8].copy_from_slice(&u32::to_be_bytes(error));
        }
        let came = came_of(alloc, &bytes);
        let [write, ..] = came.answers;
        same(&rt, &write, &LOST, &error);
        // the sync was asked, and nobody answered
        same(&rt, &came.line.heads.len(), &56, &error);
        same(
            &rt,
            &came.fault,
            &Some(MediumFault::Lost(Lost::Closed)),
            &error,
        );
    }
}

#[test]
fn an_end_at_each_byte_ends_the_medium(rt: HostRuntime) {
    let alloc = rt.alloc();
    let said = said(&rt, alloc, WELL);
    same(&rt, &said.len(), &560, &"a row");
    for n in 0..said.len() {
        let came = came_of(alloc, &said[..n]);
        let (first, second, requests) = match n {
            0..16 => (LOST, LOST, 1),
            16..32 => (DONE, LOST, 2),
            _ => (DONE, DONE, 3),
        };
        let due = [first, second, LOST, LOST, LOST, LOST];
        same(&rt, &came.answers, &due, &n);
        same(&rt, &came.line.heads.len(), &(requests * 28), &n);
        check_told(
            &rt,
            &came.told,
            Some(MediumFault::Lost(Lost::Closed)),
            "a cut",
        );
    }
}

#[test]
fn requests_are_those_of_the_protocol(rt: HostRuntime) {
    let alloc = rt.alloc();
    let said = said(&rt, alloc, WELL);
    let came = came_of(alloc, &said);
    let due = "25609513 0000 0001 0000000000000001 0000000000000400 00000200
        25609513 0000 0003 0000000000000002 0000000000000000 00000000
        25609513 0000 0000 0000000000000003 0000000000000400 00000200
        25609513 0000 0001 0000000000000004 0000000000000400 00000200";
    same(&rt, &came.line.heads, &bytes_of(&rt, alloc, due), &"heads");
    same(&rt, &came.line.behind, &1024, &"bytes of two writes");
}

#[test]
fn zeros_are_asked_for_by_their_length(rt: HostRuntime) {
    let alloc = rt.alloc();
    let said = said(&rt, alloc, WELL);
    let line = Scripted::new(alloc, &said);
    let mut told = Told {
        first: None,
        count: 0,
    };
    let mut medium = NbdMedium::new(line, &mut told).with_write_zeroes();
    let mut block = [0; 512];
    if medium.blocks() < 4 {
        panic!(&rt; "a short line");
    }
    same(&rt, &medium.write_at(3, &block), &DONE, &"zeros");
    block[511] = 1;
    same(&rt, &medium.write_at(3, &block), &DONE, &"another byte");
    let due = "25609513 0000 0006 0000000000000001 0000000000000600 00000200
        25609513 0000 0001 0000000000000002 0000000000000600 00000200";
    let line = medium.into_line();
    same(&rt, &line.heads, &bytes_of(&rt, alloc, due), &"heads");
}

#[test]
fn nothing_is_asked_for_no_block(rt: HostRuntime) {
    let alloc = rt.alloc();
    let mut told = Told {
        first: None,
        count: 0,
    };
    let mut medium = NbdMedium::new(Scripted::new(alloc, &[]), &mut told);
    let none = medium.read_at(0, &mut []);
    same(&rt, &none, &DONE, &"a read of no block");
    same(&rt, &medium.write_at(0, &[]), &DONE, &"a write of no block");
    same(&rt, &medium.fault(), &None, &"no end");
    same(&rt, &medium.into_line().calls, &0, &"no call");
}

#[test]
fn a_long_request_is_asked_in_parts(rt: HostRuntime) {
    let alloc = rt.alloc();
    let said = said(&rt, alloc, WELL);
    let mut line = Scripted::new(alloc, &said);
    line.sizes.longest = 4096;
    let mut told = Told {
        first: None,
        count: 0,
    };
    let mut medium = NbdMedium::new(line, &mut told).with_write_zeroes();
    let mut blocks = [0; 8704];
    blocks[0] = 1;
    if medium.blocks() < 19 {
        panic!(&rt; "a short line");
    }
    same(&rt, &medium.write_at(2, &blocks), &DONE, &"17 blocks");
    let due = "25609513 0000 0001 0000000000000001 0000000000000400 00001000
        25609513 0000 0006 0000000000000002 0000000000001400 00001000
        25609513 0000 0006 0000000000000003 0000000000002400 00000200";
    let line = medium.into_line();
    same(&rt, &line.heads, &bytes_of(&rt, alloc, due), &"heads");
}
