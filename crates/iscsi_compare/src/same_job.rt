//! Two runs of one job.

ghost use Rattle.iscsi_compare.specs.Comparing.{ReadInput, GaveInput, AppendsDifference};
ghost use Rattle.iscsi_compare.specs.SameJobVerdict.{ComparesJobs};

mod heads;
pub mod laws;
mod names;
mod numbers;
mod renaming;
mod segments;
mod steps;

use crate::fault::{CompareFault, Which};
use crate::in_step::{difference, write_lines};
use crate::same_job::renaming::Renaming;
use crate::side::Side;
use crate::verdict::Verdict;
use std::alloc::Global;
use std::io::Read;

/// Reads two streams in step, PDU by PDU, and says whether they are two runs of one job. Two such
/// runs are equal up to a one-to-one renaming of task tags, transfer tags, ISIDs and TSIHs, and
/// constant steps of CmdSN and of StatSN. If the streams part, it appends two lines as `compare`
/// does.
///
/// `Same` says that both streams are of the profile and of one job. `Differ` has the places of the
/// first PDUs with which they are not of one job, or at which one stream ends. What stands behind a
/// difference isn't judged. Its faults are those of `compare`, behind PDUs of one job. One PDU of
/// each stream is held, and each distinct tag, ISID and TSIH of both; a PDU takes a time that grows
/// with the logarithm of their number.
pub fn compare_jobs<R: Read, Q: Read>(
    alloc: Global,
    mine: &mut R,
    other: &mut Q,
    out: &mut Vec<u8>,
) -> Result<Verdict, CompareFault>
    ensures compares { (first : ReadInput) × (second : ReadInput)
        × GaveInput (R.remaining mine.old) (R.remaining mine.new) first
        × GaveInput (Q.remaining other.old) (Q.remaining other.new) second
        × ComparesJobs result first second }
    ensures tells { AppendsDifference result out.old.items out.new.items }
{
    let mut first = Side::new(alloc, Which::First);
    let mut second = Side::new(alloc, Which::Second);
    let mut renaming = Renaming::new(alloc)?;
    loop {
        let some = first.advance(mine)?;
        second.advance(other)?;
        if !renaming.accepts_next(alloc, &first.framer, &second.framer)? {
            write_lines(&first, &second, out)?;
            return Ok(difference(&first, &second));
        }
        if !some {
            return Ok(Verdict::Same);
        }
        first.take();
        second.take();
    }
}
