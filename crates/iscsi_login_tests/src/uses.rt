//! What another program does with `iscsi_login`.

ghost use Rattle.std.specs.Prelude.{◌≡◌, Some, None, IfOk};
ghost use Rattle.iscsi_text.specs.Canonical.{canonical_text};
ghost use Rattle.iscsi_login.specs.Answer.{answer};
ghost use Rattle.iscsi_text.specs.declared.negotiated.Session.TheVariants.{Normal};

use iscsi_login::{Preferences, Session, answer_text};
use iscsi_text::Text;
use std::alloc::{AllocError, Global};

/// The answer of a target to a login text, which declares its length of segments.
pub fn answer_to(
    alloc: Global,
    text: &Text<'_>,
    preferences: &Preferences,
) -> Result<Vec<u8>, AllocError>
    ensures answered { IfOk result (λ out. out.items ≡ canonical_text
        (answer Normal preferences.now None (Some preferences.now.max_recv) text.now)) }
{
    let max_recv = Some(preferences.max_recv);
    answer_text(alloc, text, preferences, Session::Normal, None, max_recv)
}
