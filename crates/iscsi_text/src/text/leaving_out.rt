//! A text but for some of its keys.

ghost use Rattle.std.specs.Prelude.{◌≡◌, IfOk, map};
ghost use Rattle.iscsi_text.specs.Key.{is_among};
ghost use Rattle.iscsi_text.specs.Text.{without};
ghost use Rattle.iscsi_text.specs.Shown.{all_shown};

use crate::pair::Pair;
use std::alloc::{AllocError, Global};

/// The pairs of other keys than these, in their order.
pub fn pairs_without<'a>(
    alloc: Global,
    pairs: &[Pair<'a>],
    keys: &[&[u8]],
) -> Result<Vec<Pair<'a>>, AllocError>
    ensures { IfOk result (λ kept. all_shown kept.items ≡
        without (map (λ key. key.now) keys.now) (all_shown pairs.now)) }
{
    let mut kept = Vec::new(alloc);
    for pair in pairs {
        if !is_among(keys, pair.key) {
            kept.push(*pair)?;
        }
    }
    Ok(kept)
}

// Whether the key is one of these.
fn is_among(keys: &[&[u8]], key: &[u8]) -> bool
    ensures { result ≡ is_among (map (λ key. key.now) keys.now) key.now }
{
    keys.contains(&key)
}
