//! What another program does with `iscsi_compare`.

ghost use Rattle.std.specs.Prelude.{◌≡◌, List, true, Ok};
ghost use Rattle.iscsi_stream.specs.Stream.{Message, StreamMeans};

use iscsi_compare::{CompareFault, Verdict, compare};
use std::alloc::Global;

/// Whether two streams that are there as a whole have one meaning.
pub fn have_one_meaning(alloc: Global, a: &[u8], b: &[u8]) -> Result<bool, CompareFault>
    ensures one { result ≡ Ok true → (ms : List Message) × StreamMeans a.now ms × StreamMeans b.now ms }
{
    let mut first = a;
    let mut second = b;
    let mut lines = Vec::new(alloc);
    let verdict = compare(alloc, &mut first, &mut second, &mut lines)?;
    Ok(verdict == Verdict::Same)
}
