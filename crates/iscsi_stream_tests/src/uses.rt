//! What another program does with `iscsi_stream`.

ghost use Rattle.std.specs.Prelude.{◌≡◌, ◌↔◌, List, IfOk, IsTrue};
ghost use Rattle.iscsi_stream.specs.Stream.{Message, StreamMeans};
ghost use Rattle.iscsi_stream.specs.Canonical.{canon};

use iscsi_stream::{ToolFault, have_one_meaning, normalise};
use std::alloc::Global;

/// The canonical stream of a stream that is there as a whole.
pub fn canonical_stream(alloc: Global, stream: &[u8]) -> Result<Vec<u8>, ToolFault>
    ensures canonical { IfOk result (λ out. (ms : List Message) × StreamMeans stream.now ms
        × (out.items ≡ canon ms)) }
{
    let mut rest = stream;
    let mut out = Vec::new(alloc);
    normalise(alloc, &mut rest, &mut out)?;
    Ok(out)
}

/// Whether two streams that are there as a whole have one meaning.
pub fn mean_the_same(alloc: Global, mine: &[u8], other: &[u8]) -> Result<bool, ToolFault>
    ensures same { IfOk result (λ same. (ms : List Message) × (ns : List Message)
        × StreamMeans mine.now ms × StreamMeans other.now ns × (IsTrue same ↔ (ms ≡ ns))) }
{
    let mut first = mine;
    let mut second = other;
    have_one_meaning(alloc, &mut first, &mut second)
}
