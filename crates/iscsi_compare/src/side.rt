//! One of two streams that are read in step.

ghost use Rattle.std.specs.Prelude.{◌≡◌, ◌≤◌, ◌<◌, ◌-◌, ◌++◌, ◌∷◌, ℕ, List, [], length, take, drop, true, false, Option, Ok, IfOk, IfErr, OnOk, OnErr};
ghost use Rattle.iscsi_pdu.specs.Meaning.{Means};
ghost use Rattle.iscsi_pdu.specs.declared.head.Head.{Head};
ghost use Rattle.iscsi_stream.specs.Stream.{Message};
ghost use Rattle.iscsi_stream.specs.Framing.{is_ready, message_of, stopped, FramerTakes, FramerFeedFails};
ghost use Rattle.iscsi_stream.specs.Shown.{IsShownLine};
ghost use Rattle.iscsi_compare.specs.inner.Comparing.{input_of};
ghost use Rattle.iscsi_compare.specs.inner.Inside.{compare_fault, fuel, IsOpen, HasRead, SideReadsOn, SideHasRead, SideFails, FormIf};

use crate::fault::{CompareFault, Which};
use iscsi_stream::{Framer, LONGEST_SEGMENT, PIECE, Reads, StreamFault, canonical, show_line};
use itoa::Buffer;
use std::alloc::{AllocError, Global};
use std::io::Read;

/// A stream that is read PDU by PDU: its framer, the piece that was read last, and its reads. The
/// framer has not taken the bytes of the piece from `from` to `to`.
#[derive(Drop)]
pub(crate) struct Side {
    pub(crate) which: Which,
    pub(crate) framer: Framer,
    pub(crate) piece: [u8; PIECE],
    pub(crate) from: usize,
    pub(crate) to: usize,
    pub(crate) reads: Reads,
}

impl Side {
    /// A stream of which nothing is read yet. It takes no memory.
    pub(crate) fn new(alloc: Global, which: Which) -> Side
        ensures which { result.which ≡ which }
        ensures inside { IsOpen result }
        ensures none { HasRead [] [] result }
    {
        Side {
            which,
            framer: Framer::new(alloc, LONGEST_SEGMENT),
            piece: [0; PIECE],
            from: 0,
            to: 0,
            reads: Reads::new(),
        }
    }

    /// Reads on until the next PDU is ready, and says whether there is one: where there is none,
    /// the stream has ended behind the PDUs before. Puts the canonical form of the PDU into `form`,
    /// or nothing.
    ///
    /// Its faults are those of `advance`, and `NoMemory` where there is no memory for the form.
    pub(crate) fn next<R: Read>(
        &mut self,
        r: &mut R,
        form: &mut Vec<u8>,
    ) -> Result<bool, CompareFault>
        requires inside { IsOpen self.old }
        ensures inside { IsOpen self.new }
        ensures which { self.new.which ≡ self.old.which }
        ensures fuel { fuel self.new ≤ fuel self.old }
        ensures ready { IfOk result (λ some. is_ready self.new.framer ≡ some) }
        ensures ok { IfOk result (λ some. SideReadsOn self.old (R.remaining r.old)
            (R.remaining r.new)
            (SideHasRead some self.new)) }
        ensures err { IfErr result (λ fault. SideReadsOn self.old
            (R.remaining r.old) (R.remaining r.new) (SideFails fault self.old.which)) }
        ensures form { IfOk result (λ some. FormIf some self.new.framer form.new.items) }
    {
        let some = self.advance(r)?;
        self.write_form(form)?;
        Ok(some)
    }

    /// Reads on until the next PDU is ready, and says whether there is one: where there is none,
    /// the stream has ended behind the PDUs before.
    ///
    /// Returns:
    /// - `Stream` if the stream leaves the profile;
    /// - `Read` if a read fails or 16,777,216 reads did not reach the next PDU;
    /// - `NoMemory` if there is no memory for the segment of that PDU.
    pub(crate) fn advance<R: Read>(&mut self, r: &mut R) -> Result<bool, CompareFault>
        requires inside { IsOpen self.old }
        ensures inside { IsOpen self.new }
        ensures which { self.new.which ≡ self.old.which }
        ensures fuel { fuel self.new ≤ fuel self.old }
        ensures ready { IfOk result (λ some. is_ready self.new.framer ≡ some) }
        ensures ok { IfOk result (λ some. SideReadsOn self.old (R.remaining r.old)
            (R.remaining r.new)
            (SideHasRead some self.new)) }
        ensures err { IfErr result (λ fault. SideReadsOn self.old
            (R.remaining r.old) (R.remaining r.new) (SideFails fault self.old.which)) }
    {
        loop {
            if self.feed()? {
                return Ok(true);
            }
            if !self.fill(r)? {
                return Ok(false);
            }
        }
    }

    // Puts the canonical form of the PDU that is ready into `form`, or nothing where none is ready.
    fn write_form(&self, form: &mut Vec<u8>) -> Result<(), AllocError>
        ensures form { OnOk result
            (FormIf (is_ready self.now.framer) self.now.framer form.new.items) }
    {
        form.clear();
        let Some(pdu) = self.framer.pdu() else {
            return Ok(());
        };
        canonical(&pdu, self.framer.continued(), form)
    }

    /// Appends the line of the PDU that is ready, as `show` writes it, or a line that says that the
    /// stream ends, and where. Returns `AllocError` where memory runs out.
    pub(crate) fn write_line(&self, out: &mut Vec<u8>) -> Result<(), AllocError>
        ensures line { OnOk result ((line : List ℕ) × IsShownLine line
            × (out.new.items ≡ out.old.items ++ line)) }
    {
        match self.framer.pdu() {
            Some(pdu) => show_line(self.framer.place(), &pdu, out),
            None => write_end(self.framer.place(), out),
        }
    }

    /// Gives up the PDU that is ready.
    pub(crate) fn take(&mut self)
        requires inside { IsOpen self.old }
        ensures inside { IsOpen self.new }
        ensures which { self.new.which ≡ self.old.which }
        ensures taken { (read : List ℕ) (ms : List Message) (head : Head) (segment : List ℕ)
            → HasRead read ms self.old → is_ready self.old.framer ≡ true
            → Means self.old.framer.held head segment
            → HasRead read (ms ++ message_of self.old.framer head segment ∷ []) self.new }
        ensures fuel { (head : Head) (segment : List ℕ) → is_ready self.old.framer ≡ true
            → Means self.old.framer.held head segment → fuel self.new < fuel self.old }
    {
        self.framer.take();
    }

    // Has the framer take what is pending, up to the end of a PDU. Says whether one is ready.
    fn feed(&mut self) -> Result<bool, CompareFault>
        requires inside { IsOpen self.old }
        ensures inside { IsOpen self.new }
        ensures which { self.new.which ≡ self.old.which }
        ensures fuel { fuel self.new ≤ fuel self.old }
        ensures reads { self.new.reads ≡ self.old.reads }
        ensures ready { IfOk result (λ some. is_ready self.new.framer ≡ some) }
        ensures all { result ≡ Ok false → self.new.to ≡ self.new.from }
        ensures ok { OnOk result ((read : List ℕ) (ms : List Message) → HasRead read ms self.old
            → HasRead read ms self.new) }
        ensures err { IfErr result (λ fault. (read : List ℕ) (ms : List Message)
            (left : Option (List ℕ)) → HasRead read ms self.old
            → SideFails fault self.old.which (input_of read left) ms) }
    {
        let taken = match feed_part(&mut self.framer, &self.piece, self.from, self.to) {
            Ok(taken) => taken,
            Err(fault) => return Err(compare_fault(self.which, fault)),
        };
        self.from += taken;
        Ok(self.framer.pdu().is_some())
    }

    // Reads the next piece. Says whether there is one: where there is none, the stream has ended.
    fn fill<R: Read>(&mut self, r: &mut R) -> Result<bool, CompareFault>
        requires inside { IsOpen self.old }
        requires none { self.old.to ≡ self.old.from }
        requires unready { is_ready self.old.framer ≡ false }
        ensures inside { IsOpen self.new }
        ensures which { self.new.which ≡ self.old.which }
        ensures fuel { fuel self.new ≤ fuel self.old }
        ensures reads { result ≡ Ok true → self.old.reads < self.new.reads }
        ensures unready { OnOk result (is_ready self.new.framer ≡ false) }
        ensures ok { IfOk result (λ some. SideReadsOn self.old (R.remaining r.old)
            (R.remaining r.new)
            (SideHasRead some self.new)) }
        ensures err { IfErr result (λ fault. SideReadsOn self.old
            (R.remaining r.old) (R.remaining r.new) (SideFails fault self.old.which)) }
    {
        match self.reads.next(r, &mut self.piece) {
            Ok(Some(count)) => {
                self.from = 0;
                self.to = count;
                Ok(true)
            }
            Ok(None) => match self.framer.finish() {
                Ok(()) => Ok(false),
                Err(fault) => Err(compare_fault(self.which, fault)),
            },
            Err(_) => Err(CompareFault::Read(self.which)),
        }
    }
}

// Has a framer take bytes of a piece, up to the end of a PDU.
fn feed_part(
    framer: &mut Framer,
    piece: &[u8],
    from: usize,
    to: usize,
) -> Result<usize, StreamFault>
    requires order { from ≤ to }
    requires within { to ≤ length piece.now }
    ensures ok { IfOk result (λ n.
        FramerTakes framer.old (take (to - from) (drop from piece.now)) n framer.new) }
    ensures err { IfErr result (FramerFeedFails framer.old
        (take (to - from) (drop from piece.now))) }
    ensures stopped { OnErr result (framer.new ≡ stopped framer.old) }
{
    framer.feed(&piece[from..to])
}

// The fault of a comparison that a stream's is.
fn compare_fault(which: Which, fault: StreamFault) -> CompareFault
    ensures { result ≡ compare_fault which fault }
{
    match fault {
        StreamFault::NoMemory => CompareFault::NoMemory,
        _ => CompareFault::Stream(which, fault),
    }
}

// Appends the line that says where a stream ends.
fn write_end(place: u64, out: &mut Vec<u8>) -> Result<(), AllocError>
    ensures line { OnOk result ((line : List ℕ) × IsShownLine line
        × (out.new.items ≡ out.old.items ++ line)) }
{
    let mut decimal = Buffer::new();
    out.extend_from_slice(decimal.format(place).as_bytes())?;
    out.extend_from_slice(b" end\n")?;
    Ok(())
}
