//! Targets that are told how long a Data-In is at most: sessions as dialogues, as in `rows.rt`. The headers
//! were worked out by hand from the table of RFC 7143, section 11.7.

use super::NAME;
use super::dialogues::{LENGTHS, check};
use super::rows::LOGIN;
use crate::asserts::same;
use iscsi_login::Preferences;
use iscsi_target::{Config, DataInLimit, Target};
use scsi_disk::{BlockStore, SparseStore};
use std::alloc::Global;
use std::process::Abort;

/// A login of an initiator that takes segments of 4096 bytes, and the longest bursts.
const LONG_BURSTS: &str = "I> @login\n\
    T> @answer\n\
    = login\n\
    I> 43870000 0000001e 40000001 00000000 00000000 00000000 00000001 00000002 00000000 00000000 00000000 00000000 'MaxRecvDataSegmentLength=4096|\n\
    T> 23870000 0000001e 40000001 00000001 00000000 00000000 00000002 00000001 00000008 00000000 00000000 00000000 'MaxRecvDataSegmentLength=8192|\n\
    = full";

/// A READ of 8 blocks in Data-In of 1024 bytes, and a ping of more bytes, which no limit of Data-In cuts.
const SHORT: &str =
    "I> 01c10000 00000000 00000000 00000000 00000001 00001000 00000001 00000003 28000000 00000000 08000000 00000000\n\
    T> 25000000 00000400 00000000 00000000 00000001 ffffffff 00000000 00000002 00000009 00000000 00000000 00000000 11*1024\n\
    T> 25000000 00000400 00000000 00000000 00000001 ffffffff 00000000 00000002 00000009 00000001 00000400 00000000 22*1024\n\
    T> 25000000 00000400 00000000 00000000 00000001 ffffffff 00000000 00000002 00000009 00000002 00000800 00000000 33*1024\n\
    T> 25800000 00000400 00000000 00000000 00000001 ffffffff 00000000 00000002 00000009 00000003 00000c00 00000000 44*1024\n\
    T> 21800000 00000000 00000000 00000000 00000001 00000000 00000003 00000002 00000009 00000004 00000000 00000000\n\
    = full\n\
    I> 40800000 00000800 00000000 00000000 00000002 ffffffff 00000002 00000004 00000000 00000000 00000000 00000000 5a*2048\n\
    T> 20800000 00000800 00000000 00000000 00000002 ffffffff 00000004 00000002 00000009 00000000 00000000 00000000 5a*2048\n\
    = full";

/// A READ of 4 blocks in bursts of 1024 bytes and Data-In of 512.
const SHORT_IN_BURSTS: &str =
    "I> 01c10000 00000000 00000000 00000000 00000001 00000800 00000001 00000003 28000000 00000000 04000000 00000000\n\
    T> 25000000 00000200 00000000 00000000 00000001 ffffffff 00000000 00000002 00000009 00000000 00000000 00000000 11*512\n\
    T> 25800000 00000200 00000000 00000000 00000001 ffffffff 00000000 00000002 00000009 00000001 00000200 00000000 11*512\n\
    T> 25000000 00000200 00000000 00000000 00000001 ffffffff 00000000 00000002 00000009 00000002 00000400 00000000 22*512\n\
    T> 25800000 00000200 00000000 00000000 00000001 ffffffff 00000000 00000002 00000009 00000003 00000600 00000000 22*512\n\
    T> 21800000 00000000 00000000 00000000 00000001 00000000 00000003 00000002 00000009 00000004 00000000 00000000\n\
    = full";

/// A READ of 16 blocks, from the ninth on, in Data-In as long as the initiator takes them.
const LONG: &str =
    "I> 01c10000 00000000 00000000 00000000 00000001 00002000 00000001 00000003 28000000 00080000 10000000 00000000\n\
    T> 25000000 00001000 00000000 00000000 00000001 ffffffff 00000000 00000002 00000009 00000000 00000000 00000000 00*4096\n\
    T> 25800000 00001000 00000000 00000000 00000001 ffffffff 00000000 00000002 00000009 00000001 00001000 00000000 00*4096\n\
    T> 21800000 00000000 00000000 00000000 00000001 00000000 00000003 00000002 00000009 00000002 00000000 00000000\n\
    = full";

// A target that is told this limit, if it is, and that has just begun.
fn target_told(rt: &impl Abort, alloc: Global, limit: Option<u32>) -> Box<Target> {
    let config = Config::new(alloc, NAME, 1, 1, Preferences::standard()).expect(
        rt,
        "a configuration",
    );
    let Some(bytes) = limit else {
        return Box::new(alloc, Target::new(alloc, config, 1)).expect(rt, "a target");
    };
    let limit = DataInLimit::of_bytes(bytes).expect(rt, "a limit");
    let config = config.with_longest_data_in(limit);
    Box::new(alloc, Target::new(alloc, config, 1)).expect(rt, "a target")
}

/// What the first blocks of a disk are of.
const FILLED: &[u8] = &[0x11, 0x11, 0x22, 0x22, 0x33, 0x33, 0x44, 0x44];

// Fills a block with a byte.
fn fill_block<S: BlockStore>(rt: &impl Abort, store: &mut S, lba: u64, byte: u8) {
    assert!(rt; lba < store.blocks());
    same(rt, &store.write(lba, &[byte; 512]), &Ok(()), &lba);
}

// A disk of 2048 blocks, of which the first are filled.
fn disk_of(rt: &impl Abort, alloc: Global) -> SparseStore {
    let mut store = SparseStore::new(alloc, 2048);
    for (lba, byte) in FILLED.iter().enumerate() {
        fill_block(rt, &mut store, lba as u64, *byte);
    }
    store
}

// A session behind a login at a target that is told this limit, in pieces of each length.
fn check_limit(rt: &impl Abort, alloc: Global, limit: Option<u32>, login: &str, lines: &str) {
    for len in LENGTHS {
        let mut target = target_told(rt, alloc, limit);
        let mut store = disk_of(rt, alloc);
        check(rt, alloc, "login", *len, &mut target, &mut store, login);
        check(rt, alloc, "a limit", *len, &mut target, &mut store, lines);
    }
}

#[test]
fn short_data_in(rt: HostRuntime) {
    check_limit(&rt, rt.alloc(), Some(1024), LONG_BURSTS, SHORT);
    check_limit(&rt, rt.alloc(), Some(512), LOGIN, SHORT_IN_BURSTS);
}

// Where the initiator takes no more, a limit makes no difference.
#[test]
fn limits_past_what_is_taken(rt: HostRuntime) {
    check_limit(&rt, rt.alloc(), None, LONG_BURSTS, LONG);
    check_limit(&rt, rt.alloc(), Some(4096), LONG_BURSTS, LONG);
    check_limit(&rt, rt.alloc(), Some(8192), LONG_BURSTS, LONG);
}

/// Lengths, and whether each may be a limit: a multiple of 512 that isn't 0.
const LIMITS: &[(u32, bool)] = &[
    (0, false),
    (1, false),
    (511, false),
    (512, true),
    (513, false),
    (1023, false),
    (1024, true),
    (131_072, true),
    (4_294_966_784, true),
    (4_294_967_295, false),
];

#[test]
fn limits(rt: HostRuntime) {
    for row in LIMITS {
        let (bytes, is_limit) = *row;
        let limit = DataInLimit::of_bytes(bytes);
        same(&rt, &limit.is_some(), &is_limit, row);
        if let Some(limit) = limit {
            same(&rt, &limit.bytes(), &bytes, row);
        }
    }
}
