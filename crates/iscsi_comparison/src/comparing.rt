//! Two inputs compared.

ghost use Rattle.std.specs.Prelude.{◌≡◌, ℕ, List};
ghost use Rattle.std.specs.Io.KnownBytes.{Appends};
ghost use Rattle.iscsi_compare.specs.Comparing.{ReadInput, GaveInput, AppendsDifference};
ghost use Rattle.iscsi_comparison.specs.Comparisons.{input_fault, comparison_fault, comparison_exit_status, ComparisonSays, ComparesBytes, ComparesHex, GaveText};

use iscsi_compare::same_job::compare_jobs;
use iscsi_compare::{CompareFault, Verdict, Which, compare};
use iscsi_filters::{read_bytes, status};
use iscsi_stream::{ToolFault, write_fully};
use std::alloc::Global;
use std::io::{Read, Write};

/// What makes two streams the same.
#[derive(Clone, Copy, Debug, PartialEq, Eq)]
pub enum Sameness {
    /// One meaning.
    Meaning,
    /// They are two runs of one job.
    Job,
}

/// Why a comparison of two inputs stops.
#[derive(Clone, Copy, Debug, PartialEq, Eq)]
pub enum ComparisonFault {
    /// This input is refused (`Stream`, `NotHex`), or a read of it failed (`Read`).
    Input(Which, ToolFault),
    /// Memory ran out (`NoMemory`), or a write failed (`Write`).
    Own(ToolFault),
}

impl ComparisonFault {
    /// The exit status that says the fault: that of `status`.
    pub fn status(&self) -> u8
        ensures { result ≡ comparison_exit_status self.now }
    {
        match self {
            ComparisonFault::Input(_, fault) => status(fault),
            ComparisonFault::Own(fault) => status(fault),
        }
    }
}

/// Compares two streams, and writes two lines where they differ: for each stream the line of the PDU
/// that stands there, as `show` writes it, or its place and `end`.
///
/// Its faults are those of `compare` and `compare_jobs`, before which nothing is written, and `Write` where a write
/// fails, which leaves a front of the lines.
pub fn compare_bytes<R: Read, Q: Read, W: Write>(
    alloc: Global,
    sameness: Sameness,
    mine: &mut R,
    other: &mut Q,
    w: &mut W,
) -> Result<Verdict, ComparisonFault>
    ensures compares { (first : ReadInput) × (second : ReadInput) × (written : List ℕ)
        × GaveInput (R.remaining mine.old) (R.remaining mine.new) first
        × GaveInput (Q.remaining other.old) (Q.remaining other.new) second
        × Appends (W.contents w.old) (W.contents w.new) written
        × ComparesBytes sameness result first second written }
{
    let mut lines = Vec::new(alloc);
    let verdict = match judged(alloc, sameness, mine, other, &mut lines) {
        Ok(verdict) => verdict,
        Err(fault) => return Err(comparison_fault(fault)),
    };
    match write_fully(w, &lines) {
        Ok(()) => Ok(verdict),
        Err(fault) => Err(ComparisonFault::Own(fault)),
    }
}

/// Compares two streams that come as hex text, as `compare_bytes` does. Both texts are read to their
/// ends first, that of the first stream before the other; `NotHex` and `Read` come before any
/// comparison.
pub fn compare_hex<R: Read, Q: Read, W: Write>(
    alloc: Global,
    sameness: Sameness,
    mine: &mut R,
    other: &mut Q,
    w: &mut W,
) -> Result<Verdict, ComparisonFault>
    ensures compares { (first : ReadInput) × (second : ReadInput) × (written : List ℕ)
        × GaveText (R.remaining mine.old) (R.remaining mine.new) first
        × GaveText (Q.remaining other.old) (Q.remaining other.new) second
        × Appends (W.contents w.old) (W.contents w.new) written
        × ComparesHex sameness result first second written }
{
    let bytes = match read_bytes(alloc, mine) {
        Ok(bytes) => bytes,
        Err(fault) => return Err(input_fault(Which::First, fault)),
    };
    let other_bytes = match read_bytes(alloc, other) {
        Ok(bytes) => bytes,
        Err(fault) => return Err(input_fault(Which::Second, fault)),
    };
    let mut source = bytes.as_slice();
    let mut other_source = other_bytes.as_slice();
    compare_bytes(alloc, sameness, &mut source, &mut other_source, w)
}

// Compares two streams in the way that was asked for.
fn judged<R: Read, Q: Read>(
    alloc: Global,
    sameness: Sameness,
    mine: &mut R,
    other: &mut Q,
    lines: &mut Vec<u8>,
) -> Result<Verdict, CompareFault>
    ensures compares { (first : ReadInput) × (second : ReadInput)
        × GaveInput (R.remaining mine.old) (R.remaining mine.new) first
        × GaveInput (Q.remaining other.old) (Q.remaining other.new) second
        × ComparisonSays sameness result first second }
    ensures tells { AppendsDifference result lines.old.items lines.new.items }
{
    match sameness {
        Sameness::Meaning => compare(alloc, mine, other, lines),
        Sameness::Job => compare_jobs(alloc, mine, other, lines),
    }
}

// A fault of reading an input; that memory ran out is no input's.
fn input_fault(which: Which, fault: ToolFault) -> ComparisonFault
    ensures { result ≡ input_fault which fault }
{
    match fault {
        ToolFault::NoMemory => ComparisonFault::Own(ToolFault::NoMemory),
        _ => ComparisonFault::Input(which, fault),
    }
}

// The fault that a comparison's is.
fn comparison_fault(fault: CompareFault) -> ComparisonFault
    ensures { result ≡ comparison_fault fault }
{
    match fault {
        CompareFault::NoMemory => ComparisonFault::Own(ToolFault::NoMemory),
        CompareFault::Stream(which, fault) => {
            ComparisonFault::Input(which, ToolFault::Stream(fault))
        }
        CompareFault::Read(which) => ComparisonFault::Input(which, ToolFault::Read),
    }
}
