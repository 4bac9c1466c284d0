//! A PDU and its canonical form are answered alike, also where a byte of its header is another one.

use super::rows::LOGIN;
use super::target_of;
use crate::asserts::same;
use iscsi_login::Phase;
use iscsi_stream::normalise;
use iscsi_target::TargetFault;
use iscsi_test_support::{marked, pdus_of};
use scsi_disk::{BlockStore, SparseStore};
use std::alloc::Global;
use std::process::Abort;

// PDUs behind the login of the dialogues: without InitialR2T, so that a write whose bit F is cleared
// waits for data of its own. Each byte of the header in turn has each value, and `forms` counts the PDUs that
// have a canonical form. Any value of a byte is taken but for bytes 0 and 4 to 7: 43 * 256 PDUs. Byte 0 has one
// of the 17 opcodes below two bits that refuse nothing: 17 * 4. Byte 4 has to be 00. Bytes 5 to 7 have to say
// the length of the segment: a longer one is not whole, and what a shorter one leaves over is no PDU. So each
// of the four has one value, but byte 7 of the ping four: segments of 1 to 4 bytes fill the same word with
// their padding.

/// How many blocks the disk has.
const BLOCKS: u64 = 2048;

/// What is counted of a PDU, of whose header each byte in turn has each value.
#[derive(Clone, Copy, Debug, PartialEq, Eq)]
struct Count {
    /// How many have a canonical form.
    forms: u64,
    /// How many of those have another one, and write the first block.
    writes: u64,
}

const PING: &str =
    "c0800000 00000003 11111111 11111111 00000001 ffffffff 00000005 00000002 00000000 00000000 00000000 00000000 616263ff";

const PINGS: Count = Count {
    forms: 11_083,
    writes: 0,
};

const LOGIN_AGAIN: &str =
    "03030000 00000000 40000001 00000000 00000000 0000ffff 00000001 00000000 00000000 00000000 00000000 00000000";

const WRITE: &str =
    "01a10000 00000200 00000000 00000000 00000001 00001000 00000001 00000003 2a000000 00000000 08000000 00000000 5a*512";

const OTHERS: Count = Count {
    forms: 11_080,
    writes: 0,
};

// A write that has all its data.
const WHOLE: &str =
    "01a10000 00000200 00000000 00000000 00000001 00000200 00000001 00000003 2a000000 00000000 01000000 00000000 5a*512";

// `writes` counts these values of one byte, with which the PDU has another canonical form:
// - Byte 0 has the highest bit, with or without the bit of immediate commands: 2.
// - Byte 1 has some of two bits, with any attribute: 3 * 8.
// - Byte 2 or 3 has another value: 2 * 255.
// - Byte 38 has some of three bits, with any group: 7 * 32.
// - One of bytes 42 to 47 has another value: 6 * 255.
const WHOLES: Count = Count {
    forms: 11_080,
    writes: 2290,
};

/// What goes before a PDU that is changed, and how many of the first blocks are compared behind it.
#[derive(Clone, Copy)]
struct Around<'a> {
    login: &'a [u8],
    blocks: u32,
}

// What a target answers to a PDU behind the login. All that it writes is appended, and behind it the
// first blocks of its disk.
fn answers_to(
    rt: &impl Abort,
    alloc: Global,
    around: Around<'_>,
    pdu: &[u8],
    out: &mut Vec<u8>,
) -> Result<Phase, TargetFault> {
    let mut store = SparseStore::new(alloc, BLOCKS);
    let mut target = target_of(rt, alloc);
    let phase = target.feed(around.login, &mut store, out);
    same(rt, &phase, &Ok(Phase::Full), &"login");
    let answer = target.feed(pdu, &mut store, out);
    assert!(rt; around.blocks as u64 <= store.blocks());
    store.read_onto(0, around.blocks, out).expect(rt, "blocks");
    answer
}

// A PDU and its canonical form are answered alike. Says whether they write the first block.
fn write_alike(
    rt: &impl Abort,
    alloc: Global,
    around: Around<'_>,
    pdu: &[u8],
    canonical: &[u8],
    row: (usize, u8),
) -> bool {
    let (mut out, mut twice) = (Vec::new(alloc), Vec::new(alloc));
    let result = answers_to(rt, alloc, around, pdu, &mut out);
    let again = answers_to(rt, alloc, around, canonical, &mut twice);
    same(rt, &again, &result, &row);
    same(rt, &twice, &out, &row);
    let bytes = 512usize.saturating_mul(around.blocks as usize);
    out.get(out.len().saturating_sub(bytes)) == Some(&0x5a)
}

// Counts a PDU that has a canonical form, and compares the answers where that is another one.
fn count_form(
    rt: &impl Abort,
    alloc: Global,
    around: Around<'_>,
    pdu: &[u8],
    row: (usize, u8),
    count: &mut Count,
) {
    let mut source = pdu;
    let mut canonical = Vec::new(alloc);
    if normalise(alloc, &mut source, &mut canonical).is_err() {
        return;
    }
    count.forms = count.forms.saturating_add(1);
    if canonical.as_slice() != pdu && write_alike(rt, alloc, around, pdu, &canonical, row) {
        count.writes = count.writes.saturating_add(1);
    }
}

// Counts the PDUs in which the byte at a place has each value in turn.
fn count_at(
    rt: &impl Abort,
    alloc: Global,
    around: Around<'_>,
    pdu: &mut [u8],
    place: usize,
    count: &mut Count,
) {
    let kept = pdu.get(place).copied().unwrap_or(0);
    for value in 0..=255u8 {
        if let Some(byte) = pdu.get_mut(place) {
            *byte = value;
        }
        count_form(rt, alloc, around, pdu, (place, value), count);
    }
    if let Some(byte) = pdu.get_mut(place) {
        *byte = kept;
    }
}

// A PDU whose header is changed so is answered as its canonical form, wherever it has one.
fn check_changes(rt: &impl Abort, alloc: Global, line: &str, blocks: u32, want: Count) {
    let login = marked(alloc, LOGIN, "I> ").expect(rt, "a login");
    let around = Around {
        login: login.as_slice(),
        blocks,
    };
    let mut pdu = pdus_of(alloc, line).expect(rt, line);
    let mut count = Count {
        forms: 0,
        writes: 0,
    };
    for place in 0..48usize {
        count_at(rt, alloc, around, &mut pdu, place, &mut count);
    }
    same(rt, &count, &want, &line);
}

#[test]
fn changed_pings_are_answered_alike(rt: HostRuntime) {
    check_changes(&rt, rt.alloc(), PING, 1, PINGS);
}

#[test]
fn changed_logins_are_answered_alike(rt: HostRuntime) {
    check_changes(&rt, rt.alloc(), LOGIN_AGAIN, 1, OTHERS);
}

#[test]
fn changed_writes_are_answered_alike(rt: HostRuntime) {
    check_changes(&rt, rt.alloc(), WRITE, 8, OTHERS);
}

#[test]
fn changed_whole_writes_are_answered_alike(rt: HostRuntime) {
    check_changes(&rt, rt.alloc(), WHOLE, 16, WHOLES);
}
