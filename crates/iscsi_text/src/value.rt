//! Typed values (RFC 7143, section 6.1).

ghost use Rattle.std.specs.Prelude.{◌≡◌, ◌++◌, ◌↔◌, length, IsTrue, OnOk, OnErr};
ghost use Rattle.iscsi_text.specs.Value.{typed, MeansValue, IsItems, value_text, boolean_text};

use crate::key::KeyKind;
use crate::numeral::{Numeral, read_number};
use std::alloc::AllocError;

/// A value, by the kind of its key. Slices are of the bytes that were read.
///
/// The kinds are those of RFC 7143, section 6.1; that bytes of the wrong form stay as they are,
/// as an odd value, is own rule. Two values are equal exactly if they mean the same.
#[derive(Clone, Copy, Debug, PartialEq, Eq)]
pub enum Value<'a> {
    /// The number that the bytes behind a `KeyKind::Number` spell.
    Number(u64),
    /// `Yes` is true and `No` is false, behind a `KeyKind::Boolean`.
    Boolean(bool),
    /// One item or more, each of one byte or more, with the commas between them.
    Items(&'a [u8]),
    /// Bytes of no further form, behind a `KeyKind::Plain` or an unknown key.
    Plain(&'a [u8]),
    /// Bytes that are no value of their key's kind.
    Odd(&'a [u8]),
}

impl<'a> Value<'a> {
    // What the bytes mean behind a key of this kind.
    pub(crate) fn read(kind: Option<KeyKind>, bytes: &'a [u8]) -> Value<'a>
        ensures { MeansValue kind bytes.now (typed result) }
    {
        match kind {
            Some(KeyKind::Number) => match read_number(bytes) {
                Some(n) => Value::Number(n),
                None => Value::Odd(bytes),
            },
            Some(KeyKind::Boolean) => match bytes {
                b"Yes" => Value::Boolean(true),
                b"No" => Value::Boolean(false),
                _ => Value::Odd(bytes),
            },
            Some(KeyKind::Items) => {
                if is_items(bytes) {
                    Value::Items(bytes)
                } else {
                    Value::Odd(bytes)
                }
            }
            Some(KeyKind::Plain) | None => Value::Plain(bytes),
        }
    }

    // How many bytes the canonical form has.
    pub(crate) fn text_len(&self) -> usize
        ensures { result ≡ length (value_text (typed self.now)) }
    {
        match self {
            Value::Number(n) => Numeral::canonical(*n).len(),
            Value::Boolean(b) => boolean_text(*b).len(),
            Value::Items(bytes) | Value::Plain(bytes) | Value::Odd(bytes) => bytes.len(),
        }
    }

    // Appends the canonical form.
    pub(crate) fn write(&self, out: &mut Vec<u8>) -> Result<(), AllocError>
        ensures ok { OnOk result (out.new.items ≡ out.old.items ++ value_text (typed self.now)) }
        ensures err { OnErr result (out.new.items ≡ out.old.items) }
    {
        match self {
            Value::Number(n) => out.extend_from_slice(Numeral::canonical(*n).as_slice()),
            Value::Boolean(b) => out.extend_from_slice(boolean_text(*b)),
            Value::Items(bytes) | Value::Plain(bytes) | Value::Odd(bytes) => out.extend_from_slice(
                bytes,
            ),
        }
    }
}

// `Yes` or `No`.
fn boolean_text(b: bool) -> &'static [u8]
    ensures { result.now ≡ boolean_text b }
{
    if b { b"Yes" } else { b"No" }
}

// Whether the bytes are items separated by commas.
fn is_items(bytes: &[u8]) -> bool
    ensures { IsTrue result ↔ IsItems bytes.now }
{
    bytes.split(|b| *b == b',').all(|item| !item.is_empty())
}
