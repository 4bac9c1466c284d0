//! The names of the initiators that may log in.

ghost use Rattle.std.specs.Prelude.{◌≡◌, IfOk, map};
ghost use Rattle.std.specs.Str.{bytes_eq};
ghost use Rattle.iscsi_text.specs.Key.{is_among};

use std::alloc::{AllocError, Global};
use std::marker::Model;

/// The name of an initiator.
#[derive(Debug, Drop)]
pub struct Name {
    bytes: Vec<u8>,
}

impl Model for Name {
    ghost use Rattle.std.specs.Prelude.{List, ℕ};

    ghost Value = { List ℕ };

    ghost view = { λ n. n.bytes.items };
}

impl Name {
    // A name to keep, of these bytes.
    fn copy_of(alloc: Global, bytes: &[u8]) -> Result<Name, AllocError>
        ensures ok { IfOk result (λ name. name ≡ bytes.now) }
    {
        let bytes = bytes.to_vec(alloc)?;
        Ok(Name { bytes })
    }

    // Whether it has these bytes.
    fn is(&self, bytes: &[u8]) -> bool
        ensures same { result ≡ bytes_eq self.now bytes.now }
    {
        self.bytes.as_slice() == bytes
    }
}

/// Names to keep, in the same order.
pub fn copies_of(alloc: Global, names: &[&[u8]]) -> Result<Vec<Name>, AllocError>
    ensures ok { IfOk result (λ copies. copies.items ≡ map (λ name. name.now) names.now) }
{
    let mut copies = Vec::new(alloc);
    for name in names {
        copies.push(Name::copy_of(alloc, name)?)?;
    }
    Ok(copies)
}

/// Whether one of the names has these bytes.
pub fn has_name(names: &[Name], bytes: &[u8]) -> bool
    ensures among { result ≡ is_among names.now bytes.now }
{
    for name in names {
        if name.is(bytes) {
            return true;
        }
    }
    false
}
