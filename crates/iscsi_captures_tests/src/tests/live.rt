//! A capture that comes from a pipe: each line is written before the pipe is asked for more.

use super::bytes_of;
use super::captures::WHOLE;
use super::interleaved::{LOGIN_LINE, PING_LINE};
use crate::asserts::same;
use iscsi_captures::{CaptureFile, Showing, Times, show_capture};
use iscsi_explain::Form;
use jiff::tz::TimeZone;
use std::alloc::Global;
use std::cell::Cell;
use std::io::{self, Read, Write};
use std::process::Abort;

/// Where the record of the login request ends in the capture, and that of the ping.
const RECORDS: (usize, usize) = (240, 344);
/// How long the front of a line is: the connection, the time and the end.
const FRONT: usize = "0 0.000002 > ".len();
/// How much is due behind the login request, and behind the ping.
const DUE: (usize, usize) = (
    FRONT + LOGIN_LINE.len(),
    2 * FRONT + LOGIN_LINE.len() + PING_LINE.len(),
);

/// A pipe that gives bytes up to the next one of some ends in a read. It counts the reads that came
/// while less was written than is due to the bytes before.
#[derive(Drop)]
struct Pipe<'a> {
    file: &'a [u8],
    at: usize,
    ends: &'a [usize],
    written: &'a Cell<usize>,
    early: usize,
}

impl Pipe<'_> {
    // How many bytes are due before more is read.
    fn due(&self) -> usize {
        if self.at >= RECORDS.1 {
            return DUE.1;
        }
        if self.at >= RECORDS.0 {
            return DUE.0;
        }
        0
    }

    // Where the next read ends.
    fn end(&self) -> usize {
        for end in self.ends {
            if *end > self.at {
                return *end;
            }
        }
        self.file.len()
    }
}

impl Read for Pipe<'_> {
    fn read(&mut self, buf: &mut [u8]) -> io::Result<usize> {
        if self.written.get() < self.due() {
            self.early = self.early.saturating_add(1);
        }
        let rest = self.file.get(self.at..self.end()).unwrap_or(&[]);
        let count = rest.len().min(buf.len());
        buf[..count].copy_from_slice(&rest[..count]);
        self.at = self.at.saturating_add(count);
        Ok(count)
    }
}

/// Keeps what it takes, and says how much that is.
#[derive(Drop)]
struct Seen<'a> {
    taken: Vec<u8>,
    written: &'a Cell<usize>,
}

impl Write for Seen<'_> {
    fn write(&mut self, buf: &[u8]) -> io::Result<usize> {
        self.taken.extend_from_slice(buf)?;
        self.written.set(self.taken.len());
        Ok(buf.len())
    }

    fn flush(&mut self) -> io::Result<()> {
        Ok(())
    }
}

// Reads a capture whose pipe ends its reads there.
fn is_shown_at_once(rt: &impl Abort, alloc: Global, file: &[u8], ends: &[usize]) {
    let written = Cell::new(0);
    let mut pipe = Pipe {
        file,
        at: 0,
        ends,
        written: &written,
        early: 0,
    };
    let mut seen = Seen {
        taken: Vec::new(alloc),
        written: &written,
    };
    let mut lines = Vec::new(alloc);
    let showing = Showing {
        form: Form::Line,
        only: None,
        times: Times::Connection,
        zone: &TimeZone::UTC,
        names: &["a"],
    };
    let mut files = CaptureFile::new(alloc).expect(rt, "memory");
    let result = show_capture(alloc, showing, &mut files, &mut pipe, &mut seen, &mut lines);
    same(rt, &result, &Ok(()), &ends);
    same(rt, &seen.taken.len(), &DUE.1, &ends);
    same(rt, &pipe.early, &0, &ends);
}

/// Where the reads of a pipe end: at packets, as `tcpdump -U` writes them; within them; behind two.
const ENDS: &[&[usize]] = &[
    &[24, 80, 136, 240, 344],
    &[24, 80, 136, 230, 240, 250, 343],
    &[80, 240],
    &[245],
];

#[test]
fn lines_are_written_before_more_is_read(rt: HostRuntime) {
    let file = bytes_of(&rt, rt.alloc(), WHOLE);
    for ends in ENDS {
        is_shown_at_once(&rt, rt.alloc(), &file, ends);
    }
}
