//! A writer that spells what is written as hex digits.

ghost use Rattle.std.specs.Prelude.{◌≡◌, ◌≤◌, ◌*◌, ◌∷◌, [], true, false, length, take, IfOk, IfErr};
ghost use Rattle.std.specs.Io.KnownBytes.{Appends, Keeps};
ghost use Rattle.hex.specs.Hex.{encode_lower};
ghost use Rattle.iscsi_tool.specs.Spelling.{whole_digits, hex_contents, lent_contents};

use std::io;
use std::io::Write;

/// How many bytes are spelled at most for one write to the writer behind.
const PIECE: usize = 256;

/// Writes the lower-case hex digits of what it is given, two for each byte, to another writer.
/// Where that one takes the first digit of a byte and not the second, no byte is taken any more.
#[derive(Drop)]
pub struct HexWriter<W> {
    inner: W,
    // Whether the last digit that was taken is the first of a byte that does not count as written.
    is_cut: bool,
}

impl<W: Write> HexWriter<W> {
    /// Digits go to this writer from now on.
    pub fn new(inner: W) -> HexWriter<W>
        ensures inner { result.inner ≡ inner }
        ensures whole { result.is_cut ≡ false }
    {
        HexWriter {
            inner,
            is_cut: false,
        }
    }

    /// Whether a byte was cut between its digits.
    pub fn is_cut(&self) -> bool
        ensures { result ≡ self.now.is_cut }
    {
        self.is_cut
    }

    /// The writer behind.
    pub fn into_inner(self) -> W
        ensures { result ≡ self.inner }
    {
        let HexWriter { inner, is_cut: _ } = self;
        inner
    }
}

impl<W: Write> Write for HexWriter<W> {
    ghost contents = { hex_contents W.contents };

    fn write(&mut self, buf: &[u8]) -> io::Result<usize> {
        if self.is_cut {
            return Ok(0);
        }
        let (written, is_cut) = write_digits(&mut self.inner, buf)?;
        self.is_cut = is_cut;
        Ok(written)
    }

    fn flush(&mut self) -> io::Result<()> {
        self.inner.flush()
    }
}

// Writes the digits of the first bytes. Says of how many bytes both digits were taken, and whether
// the first of one more was.
fn write_digits<W: Write>(w: &mut W, bytes: &[u8]) -> io::Result<(usize, bool)>
    ensures bound { IfOk result (λ x. x.0 ≤ length bytes.now) }
    ensures ok { IfOk result (λ x. Appends (W.contents w.old)
        (whole_digits x.1 (W.contents w.new)) (encode_lower (take x.0 bytes.now))) }
    ensures err { IfErr result (λ _. Keeps (W.contents w.old) (W.contents w.new)) }
{
    let piece = &bytes[..bytes.len().min(PIECE)];
    let mut room = [0u8; 2 * PIECE];
    let digits = &mut room[..2 * piece.len()];
    spell(piece, digits);
    let taken = w.write(digits)?;
    if taken % 2 == 0 {
        return Ok((taken / 2, false));
    }
    if write_digit(w, digits[taken]) {
        return Ok((taken / 2 + 1, false));
    }
    Ok((taken / 2, true))
}

// The digits of bytes, into room for just these.
fn spell(bytes: &[u8], digits: &mut [u8])
    requires room { length digits.old ≡ 2 * length bytes.now }
    ensures { digits.new ≡ encode_lower bytes.now }
{
    // It fails only where the room is another.
    let _ = hex::encode_to_slice(bytes, digits);
}

// Writes a digit. Says whether it was taken.
fn write_digit<W: Write>(w: &mut W, digit: u8) -> bool
    ensures no { result ≡ false → Keeps (W.contents w.old) (W.contents w.new) }
    ensures yes { result ≡ true → Appends (W.contents w.old) (W.contents w.new) (digit ∷ []) }
{
    match w.write(&[digit]) {
        Ok(n) => n == 1,
        Err(_) => false,
    }
}

/// A writer that is lent. For proofs, what it holds begins with the name of the loan. So what is
/// written to a writer in front of it has gone to this one and to no other.
#[derive(Drop)]
pub struct LentWriter<'a, W> {
    /// The writer behind.
    pub writer: &'a mut W,
}

impl<W: Write> Write for LentWriter<'_, W> {
    ghost contents = { lent_contents W.contents };

    fn write(&mut self, buf: &[u8]) -> io::Result<usize> {
        self.writer.write(buf)
    }

    fn flush(&mut self) -> io::Result<()> {
        self.writer.flush()
    }
}
