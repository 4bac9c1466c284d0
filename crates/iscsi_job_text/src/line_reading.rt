//! The lines of a text, read as they come.

ghost use Rattle.std.specs.Prelude.{◌≡◌, ◌≤◌, ◌<◌, ◌+◌, ◌==◌, [], false, IfOk, OnOk, IfSome, length, map, slice_range, take};
ghost use Rattle.std.specs.Io.KnownBytes.{Consumes, IsAtEnd};
ghost use Rattle.iscsi_job_text.specs.Jobs.{blank_of};
ghost use Rattle.iscsi_job_text.specs.Reading.{ReadsLine, TakesFront, TakesPart, no_lines};

use crate::fault::TextFault;
use iscsi_text::split_at_byte;
use std::alloc::{AllocError, Global};
use std::io::{self, ErrorKind, Read};
use std::marker::Model;

/// How many bytes are read at a time.
const PIECE: usize = 4096;

/// The longest line of a job, in bytes (own rule).
pub const LONGEST_LINE: usize = 1_073_741_824;

/// The lines of a text. It holds one at a time.
#[derive(Drop)]
pub(crate) struct LineReader {
    piece: [u8; PIECE],
    // the bytes of the piece that were not looked at yet
    from: usize,
    to: usize,
    line: Vec<u8>,
    count: u64,
    ghost order: { from ≤ to },
    ghost within: { to ≤ 4096 },
}

impl Model for LineReader {
    ghost use Rattle.std.specs.Prelude.{slice_range};
    ghost use Rattle.iscsi_job_text.specs.Reading.{LinesHeld};

    ghost Value = { LinesHeld };

    ghost view = { λ reader. record {
      line = reader.line.items;
      ahead = slice_range reader.piece reader.from reader.to;
      count = reader.count;
    } };
}

impl LineReader {
    /// Nothing was read yet. It takes no memory.
    pub(crate) fn new(alloc: Global) -> LineReader
        ensures { result ≡ no_lines }
    {
        LineReader {
            piece: [0; PIECE],
            from: 0,
            to: 0,
            line: Vec::new(alloc),
            count: 0,
        }
    }

    /// The last line that was read, with spaces for its blanks.
    pub(crate) fn line(&self) -> &[u8]
        ensures { result.now ≡ self.now.line }
    {
        &self.line
    }

    /// The number of the last line that was read, from 1.
    pub(crate) fn number(&self) -> u64
        ensures { result ≡ self.now.count }
    {
        self.count
    }

    /// Reads the next line, and says whether there is one. Returns `TooLong` with the number of one of more
    /// than 1,073,741,824 bytes.
    pub(crate) fn next<R: Read>(&mut self, r: &mut R) -> Result<bool, TextFault>
        ensures reads { IfSome (R.remaining r.old) (λ left. IfOk result (λ is_more.
            ReadsLine self.old self.new left (R.remaining r.new) is_more)) }
    {
        self.line.clear();
        for _ in 0..u64::MAX {
            if self.take_piece()? {
                self.end();
                return Ok(true);
            }
            if !self.fill(r)? {
                if self.line.is_empty() {
                    return Ok(false);
                }
                self.end();
                return Ok(true);
            }
        }
        Err(TextFault::Read)
    }

    // The line ends here.
    fn end(&mut self)
        ensures line { self.new.line ≡ map blank_of self.old.line }
        ensures ahead { self.new.ahead ≡ self.old.ahead }
        ensures first { (self.new.count == 1) ≡ (self.old.count == 0) }
        ensures some { (self.new.count == 0) ≡ false }
    {
        make_plain(&mut self.line);
        self.count = self.count.saturating_add(1);
    }

    // Appends what was read up to a line end, and says whether there is one.
    fn take_piece(&mut self) -> Result<bool, TextFault>
        ensures { IfOk result (TakesPart self.old self.new) }
    {
        let (count, is_last) = take_front(&mut self.line, &self.piece, self.from, self.to)?;
        self.from += count;
        if self.line.len() > LONGEST_LINE {
            return Err(TextFault::TooLong(self.count.saturating_add(1)));
        }
        Ok(is_last)
    }

    // Reads the next piece, and says whether there is one.
    fn fill<R: Read>(&mut self, r: &mut R) -> Result<bool, TextFault>
        ensures line { self.new.line ≡ self.old.line }
        ensures count { self.new.count ≡ self.old.count }
        ensures ahead { OnOk result (Consumes (R.remaining r.old) (R.remaining r.new) self.new.ahead) }
        ensures end { IfOk result (λ is_some. is_some ≡ false →
            (self.new.ahead ≡ []) × IsAtEnd (R.remaining r.new)) }
    {
        match read_some(r, &mut self.piece) {
            Ok(count) => {
                self.from = 0;
                self.to = count;
                Ok(count > 0)
            }
            Err(_) => Err(TextFault::Read),
        }
    }
}

// Makes the blanks of a line spaces.
fn make_plain(line: &mut [u8])
    ensures { line.new ≡ map blank_of line.old }
{
    for at in 0..line.len() {
        line[at] = plain_byte(line[at]);
    }
}

// A space in place of another blank.
fn plain_byte(byte: u8) -> u8
    ensures { result ≡ blank_of byte }
{
    if byte == b'\t' || byte == b'\r' {
        b' '
    } else {
        byte
    }
}

// Takes bytes of a part of a piece up to a line end, or all if there is none, and appends those before it to a
// line. Says how many bytes were taken, and whether a line end is among them.
fn take_front(
    line: &mut Vec<u8>,
    piece: &[u8],
    from: usize,
    to: usize,
) -> Result<(usize, bool), AllocError>
    requires order { from ≤ to }
    requires within { to ≤ length piece.now }
    ensures taken { IfOk result (λ it.
        TakesFront (slice_range piece.now from to) line.old.items line.new.items it.0 it.1) }
    ensures bound { IfOk result (λ it. from + it.0 ≤ to) }
{
    let ahead = &piece[from..to];
    match split_at_byte(ahead, b'\n') {
        Some((front, _)) => {
            line.extend_from_slice(front)?;
            Ok((front.len() + 1, true))
        }
        None => {
            line.extend_from_slice(ahead)?;
            Ok((ahead.len(), false))
        }
    }
}

/// Reads some bytes, and says how many; 0 at the end. A read that a signal interrupts goes on.
pub fn read_some<R: Read>(r: &mut R, buffer: &mut [u8]) -> io::Result<usize>
    ensures within { IfOk result (λ n. n ≤ length buffer.new) }
    ensures length { length buffer.new ≡ length buffer.old }
    ensures bytes { IfOk result (λ n. Consumes (R.remaining r.old) (R.remaining r.new) (take n buffer.new)) }
    ensures end { IfOk result (λ n. n ≡ 0 → 0 < length buffer.old → IsAtEnd (R.remaining r.new)) }
{
    for _ in 0..u64::MAX {
        match r.read(buffer) {
            Ok(count) => return Ok(count),
            Err(error) if error.kind() == ErrorKind::Interrupted => {}
            Err(error) => return Err(error),
        }
    }
    Err(ErrorKind::Interrupted.into())
}
