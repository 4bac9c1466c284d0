//! Readers in pieces, or whole up to a limit, and writers that take all of some bytes.

ghost use Rattle.std.specs.Prelude.{◌≡◌, ◌≤◌, ◌<◌, ◌+◌, ◌^◌, ◌⊎◌, ℕ, List, [], drop, take, length, IfOk, IfErr, IfSome, IfNone, OnOk, OnErr};
ghost use Rattle.std.specs.Io.KnownBytes.{Appends, Consumes, Keeps, IsAtEnd};
ghost use Rattle.iscsi_pdu.specs.Meaning.{AreBytes};
ghost use Rattle.iscsi_stream.specs.Normalising.{WroteFront};
ghost use Rattle.iscsi_stream.specs.declared.fault.ToolFault.TheVariants as tool;

use crate::fault::{ReadFault, ToolFault};
use std::alloc::Global;
use std::io::{Read, Write};
use std::marker::Model;

/// How many reads a reader is asked for; after these it counts as failed.
const READS: u32 = 16_777_216;
/// How many bytes a read takes at most.
pub const PIECE: usize = 4096;

/// The reads of a stream, which is read in pieces: how many there were.
#[derive(Drop)]
pub struct Reads {
    done: u32,
}

impl Model for Reads {
    ghost use Rattle.std.specs.Prelude.{ℕ, ◌≤◌};

    ghost Value = { ℕ };

    ghost view = { λ reads. reads.done };

    ghost invariant = { λ reads. reads.done ≤ 16777216 };
}

impl Reads {
    /// Nothing was read yet.
    pub fn new() -> Reads
        ensures { result ≡ 0 }
    {
        Reads { done: 0 }
    }

    /// Reads the next piece into a buffer, and says how many bytes it has; `None` where the stream
    /// has ended.
    ///
    /// Returns `ReadFault` where the read fails, or 16,777,216 of them did not reach the end.
    pub fn next<R: Read>(
        &mut self,
        r: &mut R,
        buffer: &mut [u8],
    ) -> Result<Option<usize>, ReadFault>
        requires some { 0 < length buffer.old }
        ensures left { OnOk result (self.old < 16777216) }
        ensures bytes { AreBytes buffer.new }
        ensures length { length buffer.new ≡ length buffer.old }
        ensures piece { IfOk result (λ piece. IfSome piece (λ n. (0 < n) × (n ≤ length buffer.new)
            × Consumes (R.remaining r.old) (R.remaining r.new) (take n buffer.new)
            × (self.new ≡ self.old + 1))) }
        ensures end { IfOk result (λ piece. IfNone piece (IsAtEnd (R.remaining r.new)
            × Consumes (R.remaining r.old) (R.remaining r.new) [] × (self.new ≡ self.old))) }
        ensures err { OnErr result (Keeps (R.remaining r.old) (R.remaining r.new)
            × (self.new ≡ self.old)) }
    {
        if self.done == READS {
            return Err(ReadFault);
        }
        match r.read(buffer) {
            Ok(0) => Ok(None),
            Ok(n) => {
                self.done += 1;
                Ok(Some(n))
            }
            Err(_) => Err(ReadFault),
        }
    }
}

/// Reads to the end, or until there are more bytes than the limit, and gives all that was read.
///
/// Returns `Read` where a read fails or 16,777,216 of them did not reach the end, and `NoMemory`
/// where memory runs out.
pub fn read_within<R: Read>(alloc: Global, r: &mut R, limit: usize) -> Result<Vec<u8>, ToolFault>
    requires { limit < 2 ^ 32 }
    ensures ok { IfOk result (λ bytes. Consumes (R.remaining r.old) (R.remaining r.new) bytes.items
        × (length bytes.items ≤ limit → IsAtEnd (R.remaining r.new))) }
    ensures err { IfErr result (λ fault. ((fault ≡ tool.NoMemory) ⊎ (fault ≡ tool.Read))
        × ((read : List ℕ) × Consumes (R.remaining r.old) (R.remaining r.new) read)) }
{
    let mut bytes = Vec::new(alloc);
    let mut buffer = [0u8; PIECE];
    let mut reads = Reads::new();
    while let Some(n) = reads.next(r, &mut buffer)? {
        bytes.extend_from_slice(&buffer[..n])?;
        if bytes.len() > limit {
            return Ok(bytes);
        }
    }
    Ok(bytes)
}

/// Drops the first bytes of a buffer.
pub fn drop_front(bytes: &mut Vec<u8>, count: usize)
    requires { count ≤ length bytes.old.items }
    ensures { bytes.new.items ≡ drop count bytes.old.items }
{
    bytes.drain(..count);
}

/// Writes all of the bytes. Returns `Write` where a write fails or takes no byte, and has then
/// written a front of them.
pub fn write_fully<W: Write>(w: &mut W, bytes: &[u8]) -> Result<(), ToolFault>
    ensures ok { OnOk result (Appends (W.contents w.old) (W.contents w.new) bytes.now) }
    ensures err { IfErr result (λ e. (e ≡ ToolFault.Write)
        × WroteFront (W.contents w.old) (W.contents w.new) bytes.now) }
{
    let mut rest = bytes;
    while !rest.is_empty() {
        match w.write(rest) {
            Err(_) => return Err(ToolFault::Write),
            Ok(n) => {
                if n == 0 {
                    return Err(ToolFault::Write);
                }
                rest = &rest[n..];
            }
        }
    }
    Ok(())
}
