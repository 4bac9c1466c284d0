//! Loops of both ends over a socket and in memory: scripts, and the lines that they write. One
//! file, since it is tables of scripts and what runs them.

use crate::asserts::same;
use iscsi_loop::{Channel, LONGEST_PIECE, run_loop, run_over};
use iscsi_serve::ServeFault;
use iscsi_test_support::{Broken, Full};
use scsi_disk::MOST_BLOCKS;
use std::alloc::Global;
use std::fmt::Debug;
use std::process::Abort;

// A write, reads and a logout, worked out by hand from the tables of SPC-4 and SBC-3.
const BLOCKS: &str = "write 0 8 5a\nread 0 1\ncapacity\nread 2047 2\nlogout\n";

const BLOCKS_LINES: &str = "login\ngood 0\ngood 512 5a5a5a5a5a5a5a5a5a5a5a5a5a5a5a5a\n\
    good 8 000007ff00000200\ncheck 5/21/00 under 1024\nlogout\n";

/// Scripts, and the lines that they write: a name, the script, the lines.
const SCRIPTS: &[(&str, &str, &str)] = &[
    ("blocks", BLOCKS, BLOCKS_LINES),
    (
        "units",
        "inquiry 0 5\ninquiry 1 36\ntur 1\nluns\nping 6162\nlogout\n",
        "login\ngood 5 000006121f\ngood 36 7f0006121f000002564552494449534b\n\
        check 5/25/00\ngood 16 00000008000000000000000000000000\nping 6162\nlogout\n",
    ),
    ("no line", "", "login\n"),
    (
        "no logout, no line end, no block",
        "tur 000\nread 002048 0",
        "login\ngood 0\ngood 0\n",
    ),
    (
        "a line behind the logout",
        "logout\nwrite 0 1 Aa\n",
        "login\nlogout\n",
    ),
    (
        "less and more than expected",
        "inquiry 0 65535\ninquiry 255 96\nwrite 2048 1 fF\n",
        "login\ngood 36 000006121f000002564552494449534b under 65499\n\
        good 36 7f0006121f000002564552494449534b under 60\ncheck 5/21/00 under 512\n",
    ),
];

/// Scripts over a disk of 2,048 blocks or of 2^40: a name, the blocks, the script, the lines.
const DISKS: &[(&str, u64, &str, &str)] = &[
    (
        "flushes",
        2048,
        "sync 0 0\nsync 2048 0\nsync 2049 0\nsync 2047 2\nsync 0 2048\nsync 0 65535\n",
        "login\ngood 0\ngood 0\ncheck 5/21/00\ncheck 5/21/00\ngood 0\ncheck 5/21/00\n",
    ),
    (
        "the largest disk",
        1_099_511_627_776,
        "capacity\ncapacity16\nwrite 1099511627775 1 5a\nread 1099511627775 1\n\
        read 1099511627775 2\n",
        "login\ngood 8 ffffffff00000200\ngood 32 000000ffffffffff0000020000000000\ngood 0\n\
        good 512 5a5a5a5a5a5a5a5a5a5a5a5a5a5a5a5a\ncheck 5/21/00 under 1024\n",
    ),
    (
        "addresses on both sides of 2^32, 2^40 and 2^64",
        1_099_511_627_776,
        "write 4294967295 2 a5\nread 4294967295 1\nread 4294967296 1\nread 4294967297 1\n\
        read 1099511627776 0\nread 1099511627776 1\nread 18446744073709551615 0\n\
        read 18446744073709551615 1\nsync 4294967295 65535\n",
        "login\ngood 0\ngood 512 a5a5a5a5a5a5a5a5a5a5a5a5a5a5a5a5\n\
        good 512 a5a5a5a5a5a5a5a5a5a5a5a5a5a5a5a5\ngood 512 00000000000000000000000000000000\n\
        good 0\ncheck 5/21/00 under 512\ncheck 5/21/00\ncheck 5/21/00 under 512\ngood 0\n",
    ),
    (
        "writes on both sides of 2^32, 2^40 and 2^64",
        1_099_511_627_776,
        "write 4294967295 1 a1\nwrite 4294967296 1 a2\nread 4294967295 2\nread 4294967296 1\n\
        write 1099511627775 2 a3\nwrite 1099511627775 1 a4\nread 1099511627775 1\n\
        write 1099511627776 0 a5\nwrite 1099511627776 1 a5\nwrite 18446744073709551615 1 a6\n\
        write 00000000000000000000007 1 a7\nread 7 1\n",
        "login\ngood 0\ngood 0\ngood 1024 a1a1a1a1a1a1a1a1a1a1a1a1a1a1a1a1\n\
        good 512 a2a2a2a2a2a2a2a2a2a2a2a2a2a2a2a2\ncheck 5/21/00 under 1024\ngood 0\n\
        good 512 a4a4a4a4a4a4a4a4a4a4a4a4a4a4a4a4\ngood 0\ncheck 5/21/00 under 512\n\
        check 5/21/00 under 512\ngood 0\ngood 512 a7a7a7a7a7a7a7a7a7a7a7a7a7a7a7a7\n",
    ),
];

/// Lines that are no command.
const REFUSED: &[&str] = &[
    "",
    " ",
    "Tur 0",
    "tur",
    "tur ",
    "tur  0",
    "tur 0 ",
    " tur 0",
    "tur 0\r",
    "tur\t0",
    "tur +0",
    "tur -1",
    "tur 0x1",
    "tur 256",
    "tur 18446744073709551616",
    "tur 0 0",
    "inquiry 0",
    "inquiry 0 65536",
    "inquiry 0 18446744073709551617",
    "inquiry 18446744073709551616 36",
    "inquiry 256 36",
    "capacity 0",
    "capacity ",
    "luns 0",
    "read 0",
    "read 0 8193",
    "read 18446744073709551616 1",
    "read 99999999999999999999 1",
    "read 36893488147419103232 1",
    "read 184467440737095516160 1",
    "read 0 18446744073709551617",
    "read 0 4294967297",
    "read 0 1 5a",
    "write 0 8",
    "write 18446744073709551616 1 5a",
    "write 0 8193 5a",
    "write 0 8 5",
    "write 0 8 5a5",
    "write 0 8 5g",
    "write 0 8 5a 5a",
    "ping",
    "ping ",
    "ping 6",
    "ping 616",
    "ping 6z",
    "ping 61 62",
    "logout 0",
    "sync",
    "sync 0",
    "sync 4294967296 0",
    "sync 18446744073709551616 0",
    "sync 0 65536",
    "sync 0 18446744073709551616",
    "sync 0 0 0",
    "capacity16 0",
    "capacity10",
];

/// The lengths of pieces.
const PIECES: &[u32] = &[1, 47, 48, 4096];

// How a script ends with a disk of so many blocks, in pieces of at most so many bytes. What it
// writes is appended.
fn run_on(
    rt: &HostRuntime,
    blocks: u64,
    script: &[u8],
    most: u32,
    out: &mut Vec<u8>,
) -> Result<(), ServeFault> {
    let piece = most.max(1).min(LONGEST_PIECE);
    let blocks = blocks.max(1).min(MOST_BLOCKS);
    let mut source = script;
    run_loop(rt, blocks, piece, &mut source, out)
}

// The same with both ends joined in memory.
fn run_in_memory(
    rt: &HostRuntime,
    blocks: u64,
    script: &[u8],
    most: u32,
    out: &mut Vec<u8>,
) -> Result<(), ServeFault> {
    let piece = most.max(1).min(LONGEST_PIECE);
    let blocks = blocks.max(1).min(MOST_BLOCKS);
    let mut source = script;
    run_over::<Channel, _, _>(rt, blocks, piece, &mut source, out)
}

/// A script with a disk of so many blocks, and the lines that it writes.
#[derive(Clone, Copy)]
struct Script<'a> {
    blocks: u64,
    script: &'a str,
    want: &'a str,
}

// The script over a socket ends well, with its lines.
fn check_run(
    rt: &HostRuntime,
    abort: &impl Abort,
    script: Script<'_>,
    most: u32,
    row: &impl Debug,
) {
    let mut out = Vec::new(rt.alloc());
    let result = run_on(rt, script.blocks, script.script.as_bytes(), most, &mut out);
    result.expect(abort, script.script);
    same(abort, &out.as_slice(), &script.want.as_bytes(), row);
}

// The same in memory, in pieces of each length.
fn check_in_memory(
    rt: &HostRuntime,
    abort: &impl Abort,
    script: Script<'_>,
    most: u32,
    name: &str,
) {
    let mut out = Vec::new(rt.alloc());
    let result = run_in_memory(rt, script.blocks, script.script.as_bytes(), most, &mut out);
    result.expect(abort, name);
    same(abort, &out.as_slice(), &script.want.as_bytes(), &name);
}

// The line at which a script is refused, if it is, and how many bytes it writes.
fn check_refusal(
    rt: &HostRuntime,
    abort: &impl Abort,
    script: &[u8],
    most: u32,
    line: u64,
    row: &str,
) {
    let mut out = Vec::new(rt.alloc());
    let found = match run_on(rt, 2048, script, most, &mut out) {
        Err(ServeFault::Script(line)) => Some(line),
        _ => None,
    };
    same(abort, &(found, out.len()), &(Some(line), 0), &row);
}

// A script with a disk of 2048 blocks, and its lines.
fn script_of<'a>(script: &'a str, want: &'a str) -> Script<'a> {
    Script {
        blocks: 2048,
        script,
        want,
    }
}

#[test]
fn loops_in_pieces(rt: HostRuntime) {
    let script = script_of(BLOCKS, BLOCKS_LINES);
    for piece in 1..101 {
        check_run(&rt, &rt, script, piece, &piece);
    }
    check_run(&rt, &rt, script, 4096, &4096);
}

#[test]
fn loops_over_a_socket(rt: HostRuntime) {
    for (name, script, want) in SCRIPTS {
        check_run(&rt, &rt, script_of(script, want), 48, name);
    }
}

// In pieces of each length.
fn check_pieces(rt: &HostRuntime, abort: &impl Abort, script: Script<'_>, name: &str) {
    for piece in PIECES {
        check_run(rt, abort, script, *piece, &name);
    }
}

// The same in memory.
fn check_pieces_in_memory(rt: &HostRuntime, abort: &impl Abort, script: Script<'_>, name: &str) {
    for piece in PIECES {
        check_in_memory(rt, abort, script, *piece, name);
    }
}

// The script of a row.
fn script_on(row: &(&'static str, u64, &'static str, &'static str)) -> Script<'static> {
    let (_, blocks, script, want) = *row;
    Script {
        blocks,
        script,
        want,
    }
}

#[test]
fn loops_over_disks(rt: HostRuntime) {
    for row in DISKS {
        check_pieces(&rt, &rt, script_on(row), row.0);
    }
}

#[test]
fn loops_in_memory(rt: HostRuntime) {
    for (name, script, want) in SCRIPTS {
        check_pieces_in_memory(&rt, &rt, script_of(script, want), name);
    }
}

#[test]
fn loops_over_disks_in_memory(rt: HostRuntime) {
    for row in DISKS {
        check_pieces_in_memory(&rt, &rt, script_on(row), row.0);
    }
}

// A script whose second line this is.
fn second_line(rt: &impl Abort, alloc: Global, line: &str) -> Vec<u8> {
    let script = format!(in alloc; "tur 0\n{line}\nlogout\n").expect(rt, "a script");
    script.into_bytes()
}

#[test]
fn lines_that_are_refused(rt: HostRuntime) {
    for line in REFUSED {
        let script = second_line(&rt, rt.alloc(), line);
        check_refusal(&rt, &rt, &script, 48, 2, line);
    }
}

// Appends so many bytes in hex.
fn append_digits(rt: &impl Abort, bytes: usize, text: &mut Vec<u8>) {
    for _ in 0..bytes {
        text.extend_from_slice(b"5a").expect(rt, "two digits");
    }
}

// These bytes, and so many more in hex.
fn digits(rt: &impl Abort, alloc: Global, start: &[u8], bytes: usize) -> Vec<u8> {
    let mut text = Vec::from_slice(alloc, start).expect(rt, "bytes");
    append_digits(rt, bytes, &mut text);
    text
}

#[test]
fn a_ping_too_long(rt: HostRuntime) {
    let script = digits(&rt, rt.alloc(), b"ping ", 8193);
    check_refusal(&rt, &rt, &script, 4096, 1, "8,193 bytes");
}

#[test]
fn the_longest_ping(rt: HostRuntime) {
    let script = digits(&rt, rt.alloc(), b"ping ", 8192);
    let mut want = digits(&rt, rt.alloc(), b"login\nping ", 8192);
    want.push(b'\n').expect(&rt, "a line end");
    let mut out = Vec::new(rt.alloc());
    run_on(&rt, 2048, &script, 4096, &mut out).expect(&rt, "8,192 bytes");
    same(&rt, &out, &want, &"8,192 bytes");
}

// A script of so many bytes, of which the third ends the first line.
fn long_script(rt: &impl Abort, alloc: Global, bytes: usize) -> Vec<u8> {
    let mut script = Vec::from_slice(alloc, b"no\n").expect(rt, "three bytes");
    script.resize(bytes, b' ').expect(rt, "blanks");
    script
}

#[test]
fn the_longest_script(rt: HostRuntime) {
    let script = long_script(&rt, rt.alloc(), 1_048_576);
    check_refusal(&rt, &rt, &script, 48, 1, "the longest");
    let script = long_script(&rt, rt.alloc(), 1_048_577);
    check_refusal(&rt, &rt, &script, 48, 2, "one byte more");
    // The first byte too many is the first one of the third line.
    let mut script = long_script(&rt, rt.alloc(), 1_048_575);
    script.extend_from_slice(b"\n ").expect(&rt, "two bytes");
    check_refusal(&rt, &rt, &script, 48, 3, "in the third line");
}

#[test]
fn a_script_that_fails(rt: HostRuntime) {
    let mut out = Vec::new(rt.alloc());
    let result = run_loop(&rt, 8, 48, &mut Broken(Some(b"tur 0\n")), &mut out);
    let is_read = matches!(result, Err(ServeFault::Read));
    same(&rt, &is_read, &true, &"a script that fails");
    same(&rt, &out.len(), &0, &"a script that fails");
}

#[test]
fn lines_that_fail(rt: HostRuntime) {
    let mut source = b"tur 0\n".as_slice();
    let result = run_loop(&rt, 8, 48, &mut source, &mut Full);
    let is_write = matches!(result, Err(ServeFault::Write));
    same(&rt, &is_write, &true, &"lines that fail");
}
