//! Two files compared, or a file and what a reader gives.

ghost use Rattle.std.specs.Prelude.{ℕ, List};
ghost use Rattle.std.specs.Io.KnownBytes.{Appends, Consumes};
ghost use Rattle.iscsi_compare.specs.Comparing.{ReadInput};
ghost use Rattle.iscsi_comparison.specs.Comparisons.{ComparesInputs, GaveText, RunsFiles};

use crate::comparing::{ComparisonFault, Sameness, compare_bytes, compare_hex};
use iscsi_compare::{Verdict, Which};
use iscsi_stream::ToolFault;
use std::alloc::Global;
use std::io::{Read, Write};
use std::{fs, io};

/// The faults of a file that cannot be opened.
const UNREAD_FIRST: ComparisonFault = ComparisonFault::Input(Which::First, ToolFault::Read);

const UNREAD_SECOND: ComparisonFault = ComparisonFault::Input(Which::Second, ToolFault::Read);

/// Two inputs to compare.
#[derive(Clone, Copy, Debug, PartialEq, Eq)]
pub struct Comparison<'a> {
    /// The file of the first stream.
    pub first: &'a str,
    /// The file of the second stream, or the standard input.
    pub second: Option<&'a str>,
    /// What makes them the same.
    pub sameness: Sameness,
    /// Whether both are hex text.
    pub hex: bool,
}

impl Comparison<'_> {
    /// Writes the line of a fault, with the name of the input that it is of.
    pub fn tell<E: Write>(&self, fault: ComparisonFault, w: &mut E) -> io::Result<()> {
        match fault {
            ComparisonFault::Input(Which::First, reason) => {
                let name = self.first;
                writeln!(w, "{name}: {reason}")
            }
            ComparisonFault::Input(Which::Second, reason) => {
                let name = self.second.unwrap_or("standard input");
                writeln!(w, "{name}: {reason}")
            }
            ComparisonFault::Own(reason) => writeln!(w, "{reason}"),
        }
    }

    /// Compares a file of the process with another one, or with what a reader gives. Its faults are
    /// those of `compare_bytes` and `compare_hex`, and `Read` of an input that can't be opened.
    pub fn run<R: Read, W: Write>(
        &self,
        rt: &HostRuntime,
        r: &mut R,
        w: &mut W,
    ) -> Result<Verdict, ComparisonFault>
        ensures compares { (read : List ℕ) × (written : List ℕ)
            × Consumes (R.remaining r.old) (R.remaining r.new) read
            × Appends (W.contents w.old) (W.contents w.new) written
            × RunsFiles self.now result read (R.remaining r.new) written }
    {
        let alloc = rt.alloc();
        let Ok(mut first) = fs::open(rt, self.first) else {
            return Err(UNREAD_FIRST);
        };
        let Some(name) = self.second else {
            return self.between(alloc, &mut first, r, w);
        };
        let Ok(mut second) = fs::open(rt, name) else {
            return Err(UNREAD_SECOND);
        };
        self.between(alloc, &mut first, &mut second, w)
    }

    // Compares two readers.
    fn between<R: Read, Q: Read, W: Write>(
        &self,
        alloc: Global,
        first: &mut R,
        second: &mut Q,
        w: &mut W,
    ) -> Result<Verdict, ComparisonFault>
        ensures compares { (mine : ReadInput) × (other : ReadInput) × (written : List ℕ)
            × GaveText (Q.remaining second.old) (Q.remaining second.new) other
            × Appends (W.contents w.old) (W.contents w.new) written
            × ComparesInputs self.now.hex self.now.sameness result mine other written }
    {
        if self.hex {
            compare_hex(alloc, self.sameness, first, second, w)
        } else {
            compare_bytes(alloc, self.sameness, first, second, w)
        }
    }
}
