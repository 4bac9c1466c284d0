//! Whether the segments of two PDUs mean the same.

ghost use Rattle.std.specs.Prelude.{◌≡◌, IfOk, false};
ghost use Rattle.iscsi_text.specs.Canonical.{canonical_text};
ghost use Rattle.iscsi_stream.specs.Segment.{segment_of};
ghost use Rattle.iscsi_compare.specs.inner.SameJobLearning.{AnswersTruly};

use iscsi_pdu::Pdu;
use iscsi_stream::text_of;
use iscsi_text::Text;
use std::alloc::{AllocError, Global};

/// Whether the segments of two PDUs, each of which continues another login PDU or does not, mean
/// the same. Returns `AllocError` where memory runs out.
pub(crate) fn is_same_segment(
    alloc: Global,
    mine: &Pdu<'_>,
    mine_continues: bool,
    other: &Pdu<'_>,
    other_continues: bool,
) -> Result<bool, AllocError>
    ensures { IfOk result (AnswersTruly (segment_of mine_continues mine.now.head mine.now.bytes.now
        ≡ segment_of other_continues other.now.head other.now.bytes.now)) }
{
    let text = text_of(alloc, mine, mine_continues)?;
    let other_text = text_of(alloc, other, other_continues)?;
    match (text, other_text) {
        (None, None) => Ok(is_same_bytes(mine.bytes, other.bytes)),
        (Some(text), Some(other_text)) => is_same_text(alloc, &text, &other_text),
        (Some(_), None) => Ok(false),
        (None, Some(_)) => Ok(false),
    }
}

// Whether two texts have the same canonical text.
fn is_same_text(alloc: Global, mine: &Text<'_>, other: &Text<'_>) -> Result<bool, AllocError>
    ensures { IfOk result (AnswersTruly (canonical_text mine.now ≡ canonical_text other.now)) }
{
    let mut form = Vec::new(alloc);
    let mut other_form = Vec::new(alloc);
    mine.write(&mut form)?;
    other.write(&mut other_form)?;
    Ok(is_same_bytes(&form, &other_form))
}

// Whether bytes are equal.
fn is_same_bytes(mine: &[u8], other: &[u8]) -> bool
    ensures { AnswersTruly (mine.now ≡ other.now) result }
{
    mine == other
}
