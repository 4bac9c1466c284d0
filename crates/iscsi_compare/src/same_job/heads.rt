//! Whether two heads are equal.

ghost use Rattle.std.specs.Prelude.{◌≡◌};
ghost use Rattle.iscsi_pdu.specs.Meaning.{HeadFits};
ghost use Rattle.iscsi_compare.specs.inner.SameJobLearning.{AnswersTruly};

use iscsi_pdu::{Head, write_head};

/// Whether two heads are equal: they are exactly where their canonical headers are.
pub(crate) fn is_same_head(mine: &Head, other: &Head) -> bool
    requires mine { HeadFits mine.now }
    requires other { HeadFits other.now }
    ensures { AnswersTruly (mine.now ≡ other.now) result }
{
    is_same_header(&write_head(mine, 0), &write_head(other, 0))
}

// Whether two headers are equal.
fn is_same_header(mine: &[u8; 48], other: &[u8; 48]) -> bool
    ensures { AnswersTruly (mine.now ≡ other.now) result }
{
    mine == other
}
