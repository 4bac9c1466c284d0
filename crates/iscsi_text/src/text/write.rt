//! Writing pairs as their canonical text (RFC 7143, section 6.1).

ghost use Rattle.std.specs.Prelude.{◌≡◌, ◌<◌, ◌^◌, ◌++◌, length, OnOk, OnErr};
ghost use Rattle.iscsi_text.specs.Canonical.{canonical_text};
ghost use Rattle.iscsi_text.specs.Shown.{all_shown};
ghost use Rattle.iscsi_text.specs.inner.Inside.{ExtendsBytes};

use crate::pair::Pair;
use std::alloc::AllocError;

/// How many bytes the canonical text of these pairs has.
#[tactic(auto, using(crate::proofs::CanonicalLemmas::canonical_part))]
pub fn pairs_len(pairs: &[Pair]) -> usize
    requires { length (canonical_text (all_shown pairs.now)) < 2 ^ 64 }
    ensures { result ≡ length (canonical_text (all_shown pairs.now)) }
{
    let mut len = 0;
    for pair in pairs {
        len += pair.text_len();
    }
    len
}

/// Appends the canonical text of these pairs: each as `key=value` and one byte 0, in their order,
/// with canonical numerals (RFC 7143, section 6.1).
///
/// Pairs in the byte order of their keys, no key twice, have the canonical text of their map. When
/// out of memory, `out` is unchanged.
pub fn write_pairs(pairs: &[Pair], out: &mut Vec<u8>) -> Result<(), AllocError>
    ensures ok { OnOk result (out.new.items ≡
        out.old.items ++ canonical_text (all_shown pairs.now)) }
    ensures err { OnErr result (out.new.items ≡ out.old.items) }
{
    let before = out.len();
    let written = append_pairs(pairs, out);
    if written.is_err() {
        out.truncate(before);
    }
    written
}

// The same, but when out of memory, some of it may be there.
fn append_pairs(pairs: &[Pair], out: &mut Vec<u8>) -> Result<(), AllocError>
    ensures ok { OnOk result (out.new.items ≡
        out.old.items ++ canonical_text (all_shown pairs.now)) }
    ensures err { OnErr result (ExtendsBytes out.old.items out.new.items) }
{
    for pair in pairs {
        pair.write(out)?;
    }
    Ok(())
}
