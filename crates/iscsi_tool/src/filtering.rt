//! The filters from one reader to one writer.

ghost use Rattle.std.specs.Prelude.{ℕ, List, OnOk};
ghost use Rattle.std.specs.Io.KnownBytes.{Appends, Consumes};
ghost use Rattle.iscsi_words.specs.Jobs.{HasDisk};
ghost use Rattle.iscsi_tool.specs.Filtering.{Filters, FilterReadsOn, RefusesRead};

use crate::answering::{answer, answer_hex};
use iscsi_filters::{StreamWork, run_work};
use iscsi_stream::ToolFault;
use iscsi_words::{Filter, Work};
use std::alloc::Global;
use std::io::{Read, Write};

/// Runs a filter from a reader to a writer.
///
/// Without hex its faults are those of `normalise`, `normalise_text` and `show`. With hex the whole
/// input is read first. `NotHex` comes before any output, and so do `Read` and `NoMemory` of
/// `Normalise` and `Text`. Their line is written if the input is in the profile, and also if its
/// stream or text has a fault. Answers are written as they come; `answer_hex` says where their line
/// ends.
pub fn run_filter<R: Read, W: Write>(
    alloc: Global,
    filter: Filter,
    r: &mut R,
    w: &mut W,
) -> Result<(), ToolFault>
    requires disk { HasDisk filter.work }
    ensures filters { (read : List ℕ) × (written : List ℕ)
        × Consumes (R.remaining r.old) (R.remaining r.new) read
        × Appends (W.contents w.old) (W.contents w.new) written
        × Filters filter result read written }
    // Answers to bytes end also where the session is closed.
    ensures end { OnOk result (FilterReadsOn filter (R.remaining r.old) (R.remaining r.new)) }
    // A stream is called cut, a text unterminated, and hex text no hex, where the reader has told its
    // end, or the limit was passed.
    ensures refused { RefusesRead filter result (R.remaining r.old) (R.remaining r.new) }
{
    let Filter { work, hex } = filter;
    match work {
        Work::Show => run_work(alloc, StreamWork::Show, hex, r, w),
        Work::Normalise => run_work(alloc, StreamWork::Normalise, hex, r, w),
        Work::Text => run_work(alloc, StreamWork::Text, hex, r, w),
        Work::Answer(blocks) => {
            if hex {
                answer_hex(alloc, blocks, r, w)
            } else {
                answer(alloc, blocks, r, w)
            }
        }
    }
}
