//! Files of both formats: each whole, cut off at every byte, and with each byte changed. A script
//! laid out the bytes.

use super::walk::{Due, End, walked};
use crate::asserts::same;
use crate::file_uses::counted;
use crate::tests::bytes_of;
use std::alloc::Global;
use std::process::Abort;

/// A file as hex text, where its records and blocks end, and its packets.
struct File {
    name: &'static str,
    text: &'static str,
    ends: &'static [usize],
    packets: &'static [Due],
}

const FILES: &[File] = &[
    File {
        name: "classic, low bytes first, microseconds",
        text: "d4c3b2a1 02000400 00000000 00000000 00000100 01000000 e8030000 07000000 \
         05000000 3c000000 01020304 05e90300 00080000 00030000 00030000 00060708",
        ends: &[24, 45, 64],
        packets: &[
            Due {
                end: 45,
                time: 1000000007,
                second: 1000000,
                link: 1,
                original: 60,
                bytes: &[1, 2, 3, 4, 5],
            },
            Due {
                end: 64,
                time: 1001000008,
                second: 1000000,
                link: 1,
                original: 3,
                bytes: &[6, 7, 8],
            },
        ],
    },
    File {
        name: "classic, high bytes first, nanoseconds",
        text: "a1b23c4d 00020004 00000000 00000000 00010000 00000114 01020304 3b9ac9ff \
         00000005 00010203 01020304 05",
        ends: &[24, 45],
        packets: &[Due {
            end: 45,
            time: 16909060999999999,
            second: 1000000000,
            link: 276,
            original: 66051,
            bytes: &[1, 2, 3, 4, 5],
        }],
    },
    File {
        name: "classic, an empty packet, the length of check sequences above the link type",
        text: "4d3cb2a1 02000400 00000000 00000000 00000100 65000050 01000000 02000000 \
         00000000 00000000",
        ends: &[24, 40],
        packets: &[Due {
            end: 40,
            time: 1000000002,
            second: 1000000000,
            link: 101,
            original: 0,
            bytes: &[],
        }],
    },
    File {
        name: "pcapng, low bytes first: two interfaces, the three kinds of packet, a block that is not read",
        text: "0a0d0d0a 1c000000 4d3c2b1a 01000000 ffffffff ffffffff 1c000000 01000000 \
         28000000 01000000 00000000 02000200 6c6f0000 09000100 09000000 00000000 \
         28000000 01000000 20000000 65000000 04000000 00000000 09000100 09000000 \
         20000000 06000000 30000000 00000000 03000000 04000000 05000000 3c000000 \
         01020304 05000000 01000300 77687900 30000000 ad0b0000 10000000 6f776e00 \
         10000000 06000000 24000000 01000000 00000000 05000000 03000000 03000000 \
         06070800 24000000 02000000 28000000 01000300 06000000 07000000 05000000 \
         05000000 01020304 05000000 28000000 03000000 18000000 05000000 01020304 \
         05000000 18000000",
        ends: &[28, 68, 100, 148, 164, 200, 240, 264],
        packets: &[
            Due {
                end: 148,
                time: 12884901892,
                second: 1000000000,
                link: 1,
                original: 60,
                bytes: &[1, 2, 3, 4, 5],
            },
            Due {
                end: 200,
                time: 5,
                second: 1000000,
                link: 101,
                original: 3,
                bytes: &[6, 7, 8],
            },
            Due {
                end: 240,
                time: 25769803783,
                second: 1000000,
                link: 101,
                original: 5,
                bytes: &[1, 2, 3, 4, 5],
            },
            Due {
                end: 264,
                time: 0,
                second: 1000000000,
                link: 1,
                original: 5,
                bytes: &[1, 2, 3, 4, 5],
            },
        ],
    },
    File {
        name: "pcapng, high bytes first, then a section with low bytes first and its own interface; a snap length of 4; 1,024 units a second",
        text: "0a0d0d0a 0000001c 1a2b3c4d 00010000 ffffffff ffffffff 0000001c 00000001 \
         0000001c 00710000 00000004 00090001 8a000000 0000001c 00000006 00000028 \
         00000000 00000003 00000004 00000005 0000003c 01020304 05000000 00000028 \
         00000003 00000018 00000005 01020304 05000000 00000018 0a0d0d0a 1c000000 \
         4d3c2b1a 01000000 ffffffff ffffffff 1c000000 01000000 14000000 01000000 \
         00000000 14000000 06000000 24000000 00000000 00000000 08000000 03000000 \
         03000000 06070800 24000000",
        ends: &[28, 56, 96, 120, 148, 168, 204],
        packets: &[
            Due {
                end: 96,
                time: 12884901892,
                second: 1024,
                link: 113,
                original: 60,
                bytes: &[1, 2, 3, 4, 5],
            },
            Due {
                end: 120,
                time: 0,
                second: 1024,
                link: 113,
                original: 5,
                bytes: &[1, 2, 3, 4],
            },
            Due {
                end: 204,
                time: 8,
                second: 1000000,
                link: 1,
                original: 3,
                bytes: &[6, 7, 8],
            },
        ],
    },
];

// How many of these ends are reached with so many bytes.
fn reached(ends: &[usize], len: usize) -> usize {
    let mut count: usize = 0;
    for end in ends {
        if *end <= len {
            count = count.saturating_add(1);
        }
    }
    count
}

// How many packets are whole in so many bytes.
fn whole_packets(packets: &[Due], len: usize) -> usize {
    let mut count: usize = 0;
    for packet in packets {
        if packet.end <= len {
            count = count.saturating_add(1);
        }
    }
    count
}

// How the first bytes of a file end.
fn end_of(ends: &[usize], len: usize) -> End {
    let reached = reached(ends, len);
    let last = if reached == 0 {
        0
    } else {
        ends.get(reached - 1).copied().unwrap_or(0)
    };
    if last == len {
        End::Whole(len)
    } else {
        End::CutOff(last)
    }
}

// The first bytes of a file have the packets that are whole in them.
fn check_cut(rt: &impl Abort, alloc: Global, row: &File, file: &[u8], len: usize) {
    let cut = file.get(..len).expect(rt, row.name);
    let count = whole_packets(row.packets, len);
    let (packets, end) = walked(rt, alloc, cut, row.packets, usize::MAX, row.name);
    same(
        rt,
        &(packets, end),
        &(count, end_of(row.ends, len)),
        &(row.name, len),
    );
}

fn check_cuts(rt: &impl Abort, alloc: Global, row: &File) {
    let file = bytes_of(rt, alloc, row.text);
    for len in 0..file.len() {
        check_cut(rt, alloc, row, &file, len);
    }
    check_cut(rt, alloc, row, &file, file.len());
}

#[test]
fn a_file_is_cut_off_at_every_byte(rt: HostRuntime) {
    for row in FILES {
        check_cuts(&rt, rt.alloc(), row);
    }
}

// With a byte changed, the packets before it are the same.
fn check_byte(rt: &impl Abort, alloc: Global, row: &File, file: &mut [u8], at: usize, turned: u8) {
    let count = whole_packets(row.packets, at);
    let Some(byte) = file.get_mut(at) else {
        panic!(rt; "no byte");
    };
    let was = *byte;
    *byte = was ^ turned;
    let (packets, _) = walked(rt, alloc, file, row.packets, count, row.name);
    same(rt, &(packets >= count), &true, &(row.name, at, turned));
    if let Some(byte) = file.get_mut(at) {
        *byte = was;
    }
}

fn check_bytes(rt: &impl Abort, alloc: Global, row: &File) {
    let mut file = bytes_of(rt, alloc, row.text);
    for at in 0..file.len() {
        for turned in [1, 4, 128, 255] {
            check_byte(rt, alloc, row, &mut file, at, turned);
        }
    }
}

#[test]
fn a_changed_byte_changes_nothing_before_it(rt: HostRuntime) {
    for row in FILES {
        check_bytes(&rt, rt.alloc(), row);
    }
}

#[test]
fn a_caller_counts_packets(rt: HostRuntime) {
    for row in FILES {
        let file = bytes_of(&rt, rt.alloc(), row.text);
        let count = row.packets.len() as u64;
        same(&rt, &counted(rt.alloc(), &file), &Ok((count, 0)), &row.name);
    }
}
