//! A key with its value, and the pair's canonical form.

ghost use Rattle.std.specs.Prelude.{◌≡◌, ◌<◌, ◌^◌, ◌++◌, length, OnOk, OnErr};
ghost use Rattle.iscsi_text.specs.Canonical.{pair_text};
ghost use Rattle.iscsi_text.specs.Shown.{shown};
ghost use Rattle.iscsi_text.specs.inner.Inside.{ExtendsBytes};

use crate::value::Value;
use std::alloc::AllocError;

/// A key and its value, slices of the text or of other bytes (RFC 7143, section 6.1).
#[derive(Clone, Copy, Debug, PartialEq, Eq)]
pub struct Pair<'a> {
    /// The key, as `MaxBurstLength`.
    pub key: &'a [u8],
    /// What stands behind the equals sign, by its kind.
    pub value: Value<'a>,
}

impl Pair<'_> {
    // How many bytes the canonical form has, the final 0 included.
    pub(crate) fn text_len(&self) -> usize
        requires { length (pair_text (shown self.now)) < 2 ^ 64 }
        ensures { result ≡ length (pair_text (shown self.now)) }
    {
        self.key.len() + 1 + self.value.text_len() + 1
    }

    // Appends the canonical form. When out of memory, some of it may be there.
    pub(crate) fn write(&self, out: &mut Vec<u8>) -> Result<(), AllocError>
        ensures ok { OnOk result (out.new.items ≡ out.old.items ++ pair_text (shown self.now)) }
        ensures err { OnErr result (ExtendsBytes out.old.items out.new.items) }
    {
        out.extend_from_slice(self.key)?;
        out.push(b'=')?;
        self.value.write(out)?;
        out.push(0)?;
        Ok(())
    }
}
