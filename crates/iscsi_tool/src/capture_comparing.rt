//! Two captures compared: one direction of a connection of each.

ghost use Rattle.std.specs.Prelude.{◌≡◌, ℕ, List, Result};
ghost use Rattle.std.specs.Io.KnownBytes.{Appends};
ghost use Rattle.iscsi_tool.specs.CaptureComparisons.{ComparesCaptures};
ghost use Rattle.iscsi_tool.specs.inner.Capturing.{not_read};
ghost use Rattle.iscsi_stream.specs.declared.fault.ToolFault.TheVariants as tool;
ghost use Rattle.iscsi_comparison.specs.declared.comparing.ComparisonFault.{ComparisonFault};
ghost use Rattle.iscsi_compare.specs.declared.verdict.Verdict.{Verdict};

use crate::capturing::{not_opened, not_read};
use iscsi_captures::{CapturesFault, Undigested};
use iscsi_compare::{Verdict, Which};
use iscsi_comparison::{ComparisonFault, compare_bytes};
use iscsi_stream::ToolFault;
use iscsi_words::{CaptureComparison, CaptureComparisonFault, STDIN};
use std::alloc::Global;
use std::fs;
use std::io::{self, Read, Write};

/// Runs a comparison of two captures. A file that cannot be opened is absent, not permitted, or one that
/// cannot be read.
pub(crate) fn run_comparison<W: Write>(
    rt: &HostRuntime,
    comparison: CaptureComparison<'_>,
    w: &mut W,
) -> Result<Verdict, CaptureComparisonFault>
    ensures compares { (written : List ℕ) × Appends (W.contents w.old) (W.contents w.new) written
        × ComparesCaptures comparison.entry.sameness result written }
{
    if comparison.first == STDIN {
        let mut first = rt.stdin();
        return compare_with(rt, comparison, &mut first, w);
    }
    let mut first = match fs::open(rt, comparison.first) {
        Ok(first) => first,
        Err(error) => return Err(unopened(Which::First, error)),
    };
    compare_with(rt, comparison, &mut first, w)
}

// Runs a comparison whose first capture a reader gives.
fn compare_with<R: Read, W: Write>(
    rt: &HostRuntime,
    comparison: CaptureComparison<'_>,
    first: &mut R,
    w: &mut W,
) -> Result<Verdict, CaptureComparisonFault>
    ensures compares { (written : List ℕ) × Appends (W.contents w.old) (W.contents w.new) written
        × ComparesCaptures comparison.entry.sameness result written }
{
    let name = comparison.second.unwrap_or(STDIN);
    if name == STDIN {
        let mut second = rt.stdin();
        return compare_from(rt.alloc(), comparison, first, &mut second, w);
    }
    let mut second = match fs::open(rt, name) {
        Ok(second) => second,
        Err(error) => return Err(unopened(Which::Second, error)),
    };
    compare_from(rt.alloc(), comparison, first, &mut second, w)
}

// The fault of a file that cannot be opened.
fn unopened(which: Which, error: io::Error) -> CaptureComparisonFault {
    CaptureComparisonFault {
        which: Some(which),
        fault: not_opened(error.kind()),
    }
}

// Compares a direction of each of two captures that readers give.
fn compare_from<R: Read, Q: Read, W: Write>(
    alloc: Global,
    comparison: CaptureComparison<'_>,
    first: &mut R,
    second: &mut Q,
    w: &mut W,
) -> Result<Verdict, CaptureComparisonFault>
    ensures compares { (written : List ℕ) × Appends (W.contents w.old) (W.contents w.new) written
        × ComparesCaptures comparison.entry.sameness result written }
{
    let Ok(mut mine) = Undigested::new(alloc, 1, first, comparison.wanted) else {
        return Err(NO_MEMORY);
    };
    let Ok(mut other) = Undigested::new(alloc, 1, second, comparison.other) else {
        return Err(NO_MEMORY);
    };
    compare_captured(alloc, comparison, &mut mine, &mut other, w)
}

// Compares two directions. They are lent, so that none of the ways out has to take them apart.
fn compare_captured<R: Read, Q: Read, W: Write>(
    alloc: Global,
    comparison: CaptureComparison<'_>,
    mine: &mut Undigested<'_, R>,
    other: &mut Undigested<'_, Q>,
    w: &mut W,
) -> Result<Verdict, CaptureComparisonFault>
    ensures compares { (written : List ℕ) × Appends (W.contents w.old) (W.contents w.new) written
        × ComparesCaptures comparison.entry.sameness result written }
{
    match compare_bytes(alloc, comparison.sameness, mine, other, w) {
        Ok(verdict) => Ok(verdict),
        Err(ComparisonFault::Own(ToolFault::Write)) => Err(NO_WRITE),
        Err(ComparisonFault::Own(_)) => Err(NO_MEMORY),
        Err(ComparisonFault::Input(Which::First, fault)) => {
            let number = comparison.wanted.connection;
            Err(told(Which::First, number, fault, mine.fault()))
        }
        Err(ComparisonFault::Input(Which::Second, fault)) => {
            let number = comparison.other.connection;
            Err(told(Which::Second, number, fault, other.fault()))
        }
    }
}

const NO_MEMORY: CaptureComparisonFault = CaptureComparisonFault {
    which: None,
    fault: CapturesFault::NoMemory,
};

const NO_WRITE: CaptureComparisonFault = CaptureComparisonFault {
    which: None,
    fault: CapturesFault::Write,
};

// The fault of a capture that a comparison stopped at. A read fails if the direction has a fault.
fn told(
    which: Which,
    connection: usize,
    fault: ToolFault,
    cause: Option<CapturesFault>,
) -> CaptureComparisonFault
    ensures read { fault ≡ tool.Read → result.fault ≡ not_read cause connection }
{
    let fault = match fault {
        ToolFault::Stream(fault) => CapturesFault::Stream { connection, fault },
        _ => not_read(cause, connection),
    };
    match fault {
        CapturesFault::NoMemory => NO_MEMORY,
        _ => CaptureComparisonFault {
            which: Some(which),
            fault,
        },
    }
}
