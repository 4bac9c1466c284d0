//! Two streams in step.

ghost use Rattle.std.specs.Prelude.{◌≡◌, ◌++◌, ℕ, List, true, false, Ok, IfErr, OnOk, OnErr};
ghost use Rattle.iscsi_compare.specs.Comparing.{ReadInput, GaveInput, AgreeAtEnds, Part, ComparisonFails, ComparePost, AppendsDifference};
ghost use Rattle.iscsi_compare.specs.declared.verdict.Verdict.TheVariants as verdict;
ghost use Rattle.iscsi_stream.specs.Shown.{IsShownLine};

use crate::fault::{CompareFault, Which};
use crate::side::Side;
use crate::verdict::Verdict;
use std::alloc::{AllocError, Global};
use std::io::Read;

/// Reads two streams in step, PDU by PDU, and says whether they have the same meaning. Where they
/// differ it appends two lines: for each stream the line of the PDU that stands there, as `show`
/// writes it, or its place and `end`.
///
/// What stands behind a difference isn't judged. A fault comes if it stands before any difference. If
/// both streams have a fault behind the same PDUs, the first stream's fault comes. The PDUs before a
/// fault mean the same in both streams, and `out` stays as it was. The fault is:
/// - `Stream` if the stream at fault leaves the profile;
/// - `Read` if a read of the stream at fault fails or 16,777,216 reads did not reach the next PDU;
/// - `NoMemory` if memory runs out.
///
/// One PDU of each stream is held, and its canonical form, however long the streams are.
pub fn compare<R: Read, Q: Read>(
    alloc: Global,
    mine: &mut R,
    other: &mut Q,
    out: &mut Vec<u8>,
) -> Result<Verdict, CompareFault>
    // The same: both streams were read to their ends, and have one meaning.
    ensures same { result ≡ Ok verdict.Same → (first : ReadInput) × (second : ReadInput)
        × GaveInput (R.remaining mine.old) (R.remaining mine.new) first
        × GaveInput (Q.remaining other.old) (Q.remaining other.new) second
        × AgreeAtEnds first second }
    // They part at these places, and so have no meaning in common.
    ensures differ { (place other_place : ℕ) → result ≡ Ok (verdict.Differ place other_place)
        → (first : ReadInput) × (second : ReadInput)
        × GaveInput (R.remaining mine.old) (R.remaining mine.new) first
        × GaveInput (Q.remaining other.old) (Q.remaining other.new) second
        × Part first second place other_place }
    ensures fault { IfErr result (λ fault. (first : ReadInput) × (second : ReadInput)
        × GaveInput (R.remaining mine.old) (R.remaining mine.new) first
        × GaveInput (Q.remaining other.old) (Q.remaining other.new) second
        × ComparisonFails fault first second) }
    ensures tells { AppendsDifference result out.old.items out.new.items }
{
    compare_streams(alloc, mine, other, out)
}

// Compares two streams, PDU by PDU.
fn compare_streams<R: Read, Q: Read>(
    alloc: Global,
    mine: &mut R,
    other: &mut Q,
    out: &mut Vec<u8>,
) -> Result<Verdict, CompareFault>
    ensures compares { (first : ReadInput) × (second : ReadInput)
        × GaveInput (R.remaining mine.old) (R.remaining mine.new) first
        × GaveInput (Q.remaining other.old) (Q.remaining other.new) second
        × ComparePost result first second }
    ensures tells { AppendsDifference result out.old.items out.new.items }
{
    let mut first = Side::new(alloc, Which::First);
    let mut second = Side::new(alloc, Which::Second);
    let mut form = Vec::new(alloc);
    let mut other_form = Vec::new(alloc);
    loop {
        let some = first.next(mine, &mut form)?;
        let other_some = second.next(other, &mut other_form)?;
        if !is_same(some, other_some, &form, &other_form) {
            write_lines(&first, &second, out)?;
            return Ok(difference(&first, &second));
        }
        if !some {
            return Ok(Verdict::Same);
        }
        first.take();
        second.take();
    }
}

// Whether both streams go on, or both end, with the same bytes.
fn is_same(some: bool, other_some: bool, form: &[u8], other_form: &[u8]) -> bool
    ensures same { result ≡ true → (some ≡ other_some) × (form.now ≡ other_form.now) }
    ensures differ { result ≡ false → some ≡ other_some → form.now ≡ other_form.now → ⊥ }
{
    some == other_some && form == other_form
}

// That what stands next in both streams differs.
pub(crate) fn difference(first: &Side, second: &Side) -> Verdict
    ensures { result ≡ verdict.Differ first.now.framer.place second.now.framer.place }
{
    Verdict::Differ {
        place: first.framer.place(),
        other_place: second.framer.place(),
    }
}

// Appends the lines of what stands next in both streams. Leaves `out` as it was where memory runs
// out.
pub(crate) fn write_lines(first: &Side, second: &Side, out: &mut Vec<u8>) -> Result<(), AllocError>
    ensures ok { OnOk result ((line : List ℕ) × (other_line : List ℕ)
        × IsShownLine line × IsShownLine other_line
        × (out.new.items ≡ out.old.items ++ (line ++ other_line))) }
    ensures err { OnErr result (out.new.items ≡ out.old.items) }
{
    let mut lines = Vec::new(*out.allocator());
    first.write_line(&mut lines)?;
    second.write_line(&mut lines)?;
    out.extend_from_slice(&lines)?;
    Ok(())
}
