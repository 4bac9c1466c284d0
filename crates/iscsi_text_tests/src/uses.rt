//! What another program does with `iscsi_text`.

ghost use Rattle.std.specs.Prelude.{◌≡◌, IfOk};
ghost use Rattle.iscsi_text.specs.Text.{Pairs, TextMeans};
ghost use Rattle.iscsi_text.specs.Canonical.{canonical_text};

use iscsi_text::{Text, TextFault};
use std::alloc::Global;

/// The canonical text of a text.
pub fn canonical(alloc: Global, bytes: &[u8]) -> Result<Vec<u8>, TextFault>
    ensures means { IfOk result (λ out. (m : Pairs) × TextMeans bytes.now m
        × (out.items ≡ canonical_text m)) }
{
    let text = Text::read(alloc, bytes)?;
    let mut out = Vec::new(alloc);
    text.write(&mut out)?;
    Ok(out)
}
