//! Recordings of several files, and directions with digests.

use super::captures::{GAP, LATE, SUMS};
use super::interleaved::{LOGIN_LINE, plainly};
use super::{bytes_of, ends_so};
use crate::asserts::{same, same_bytes};
use iscsi_captures::{
    CaptureFile, CapturesFault, End, Showing, Times, Undigested, Wanted, show_capture,
    show_captured,
};
use iscsi_explain::Form;
use jiff::tz::TimeZone;
use std::alloc::Global;
use std::io::{self, Read};
use std::process::Abort;

// Files that are read one behind the other: a read that gives nothing ends one.
#[derive(Drop)]
struct Files<'a> {
    first: &'a [u8],
    second: &'a [u8],
    is_second: bool,
}

impl Read for Files<'_> {
    fn read(&mut self, buf: &mut [u8]) -> io::Result<usize> {
        if self.is_second {
            return self.second.read(buf);
        }
        let count = self.first.read(buf)?;
        self.is_second = count == 0;
        Ok(count)
    }
}

// The header of a classic file with nanoseconds, of raw IP.
const PRECISE: &str = "4d3cb2a1020004000000000000000000ffff000065000000";

// A capture, where its second record begins and ends, how much of that the second file has, what is
// written, and the fault with the number of its file.
const ROWS: &[(&str, (usize, usize, usize), &[&str], &str, usize)] = &[
    (
        LATE,
        (80, 164, 164),
        &["0 3 0.000000001 > ", LOGIN_LINE],
        "",
        0,
    ),
    (LATE, (80, 164, 100), &[], "capture: truncated at 24", 1),
    (
        GAP,
        (184, 243, 243),
        &["0 2 0.000001 > ", LOGIN_LINE],
        "connection 0: gap at 48 (packet 3)",
        1,
    ),
];

#[test]
fn a_connection_goes_on_in_the_next_file(rt: HostRuntime) {
    for (capture, (from, to, end), due, fault, file) in ROWS {
        let whole = bytes_of(&rt, rt.alloc(), capture);
        let mut first = Vec::new(rt.alloc());
        let mut second = bytes_of(&rt, rt.alloc(), PRECISE);
        append(&rt, &mut first, whole.get(..*from));
        append(&rt, &mut first, whole.get(*to..));
        append(&rt, &mut second, whole.get(*from..*end));
        let mut source = Files {
            first: &first,
            second: &second,
            is_second: false,
        };
        is_recorded(&rt, rt.alloc(), &mut source, due, fault, *file);
    }
}

// Appends a part of a capture, which has to be there.
fn append(rt: &impl Abort, file: &mut Vec<u8>, part: Option<&[u8]>) {
    let part = part.expect(rt, "the part is there");
    file.extend_from_slice(part).expect(rt, "memory");
}

// One row.
fn is_recorded(
    rt: &impl Abort,
    alloc: Global,
    source: &mut Files<'_>,
    due: &[&str],
    fault: &str,
    number: usize,
) {
    let showing = Showing {
        times: Times::Relative,
        names: &["a", "b"],
        ..plainly(Form::Line, None, &TimeZone::UTC)
    };
    let mut files = CaptureFile::of_files(alloc, 2).expect(rt, "memory");
    let mut out = Vec::new(alloc);
    let mut lines = Vec::new(alloc);
    let result = show_capture(alloc, showing, &mut files, source, &mut out, &mut lines);
    let mut all = String::new(alloc);
    for part in due {
        all.push_str(part).expect(rt, "memory");
    }
    same_bytes(rt, &out, all.as_bytes(), &fault);
    if let Err(said) = &result {
        same(rt, &files.file_of(said), &number, &fault);
    }
    ends_so(rt, alloc, result, fault, &fault);
}

// What is shown of one end of the capture with digests, whose places count none, and why it ends.
const ENDS: &[(End, &str, &str)] = &[
    (
        End::Initiator,
        "0 Login-Request t=1 c=0 csg=1 nsg=3 vmax=00 vmin=00 isid=400001370000 tsih=0000 itt=00000001 \
        cid=0000 cmdsn=00000001 expstatsn=00000000 data=48\n\
        96 NOP-Out i=1 itt=00000001 ttt=ffffffff cmdsn=00000005 expstatsn=00000002 data=3\n\
        148 NOP-Out i=1 itt=00000002 ttt=ffffffff cmdsn=00000006 expstatsn=00000002 data=0\n",
        "connection 0: wrong header digest from initiator at 208 (packet 6)",
    ),
    (
        End::Target,
        "0 Login-Response t=1 c=0 csg=1 nsg=3 vmax=00 vactive=00 isid=400001370000 tsih=0001 \
        itt=00000001 statsn=00000001 expcmdsn=00000002 maxcmdsn=00000009 class=00 detail=00 data=38\n",
        "",
    ),
];

#[test]
fn digests_are_left_out(rt: HostRuntime) {
    let file = bytes_of(&rt, rt.alloc(), SUMS);
    for (end, lines, fault) in ENDS {
        let mut out = Vec::new(rt.alloc());
        let result = shown(rt.alloc(), &file, *end, &mut out);
        same_bytes(&rt, &out, lines.as_bytes(), &fault);
        ends_so(&rt, rt.alloc(), result, fault, &fault);
    }
}

// Writes the lines of one end of the first connection.
fn shown(alloc: Global, file: &[u8], end: End, out: &mut Vec<u8>) -> Result<(), CapturesFault> {
    let mut source = file;
    let wanted = Wanted { connection: 0, end };
    let mut direction = Undigested::new(alloc, 1, &mut source, wanted)?;
    show_captured(alloc, &mut direction, out)
}
