//! A text, read into the map from keys to values that it means.

ghost use Rattle.std.specs.Prelude.{◌≡◌, ◌≢◌, ◌≤◌, ◌++◌, length, map, None, IfOk, IfErr, IfSome, OnOk, OnErr, slice_get};
ghost use Rattle.std.specs.Option.{option_map};
ghost use Rattle.iscsi_text.specs.Value.{typed};
ghost use Rattle.iscsi_text.specs.Text.{Pairs, values_of, without, TextMeans, IsMeaning};
ghost use Rattle.iscsi_text.specs.Fault.{IsFirstFault};
ghost use Rattle.iscsi_text.specs.Canonical.{canonical_text};
ghost use Rattle.iscsi_text.specs.Reading.{text_in};
ghost use Rattle.iscsi_text.specs.Shown.{all_shown};

mod leaving_out;
mod read;
mod write;

use crate::fault::TextFault;
use crate::pair::Pair;
use crate::value::Value;
use leaving_out::pairs_without;
use read::read_pairs;
pub use read::{sort_pairs, split_at_byte};
use std::alloc::{AllocError, Global};
use std::marker::Model;
use write::pairs_len;
pub use write::write_pairs;

/// What a text means: its pairs in the canonical order, over the text's own bytes.
///
/// Contracts see a text as the list of its keys and values in the byte order of the keys. The
/// values of a repeated `TargetAddress` stay in their order. For each key the list has what the map
/// has there. A text is a row of pairs `key=value`, each ended by a byte 0 (RFC 7143, section 6.1).
/// Bytes 0 before, between and after pairs mean nothing, and a key may begin with a small letter
/// and have a `#` (own rule).
#[derive(Debug, Drop)]
pub struct Text<'a> {
    pairs: Vec<Pair<'a>>,
}

impl<'a> Model for Text<'a> {
    ghost use Rattle.std.specs.Prelude.{◌<◌, ◌^◌, length};
    ghost use Rattle.iscsi_text.specs.Text.{Pairs, IsMeaning};
    ghost use Rattle.iscsi_text.specs.Canonical.{canonical_text};
    ghost use Rattle.iscsi_text.specs.Shown.{all_shown};

    ghost Value = { Pairs };

    ghost view = { λ t. all_shown t.pairs.items };

    ghost invariant = { λ t. IsMeaning (all_shown t.pairs.items)
        × (length (canonical_text (all_shown t.pairs.items)) < 2 ^ 64) };
}

impl<'a> Text<'a> {
    /// Reads a text (RFC 7143, section 6.1), or returns its first fault and the fault's place.
    ///
    /// Memory is taken for the list of pairs. Beside it the sort of more than 20 pairs whose keys
    /// neither ascend nor strictly descend takes a second list as long, while the sort runs. If a
    /// key is repeated, a set of keys takes the list's place. Where memory runs out the answer is
    /// `NoMemory`. The bytes mean something exactly where they have no fault.
    ///
    /// Pairs are sorted once: n of them take time of the order of n log n, and of n where their keys
    /// ascend or strictly descend. A text in which a key is repeated is read a second time.
    pub fn read(alloc: Global, bytes: &'a [u8]) -> Result<Text<'a>, TextFault>
        // The text is what the bytes mean.
        ensures found { IfOk result (λ text. TextMeans bytes.now text) }
        ensures no_longer { IfOk result (λ text. length (canonical_text text) ≤ length bytes.now) }

        // Unless memory ran out, bytes that are refused mean nothing, and the fault is their first.
        ensures fault { IfErr result (λ fault. fault ≢ TextFault.NoMemory →
            IsFirstFault bytes.now fault) }
        ensures none { IfErr result (λ fault. fault ≢ TextFault.NoMemory →
            (m : Pairs) → ¬ TextMeans bytes.now m) }
    {
        let pairs = read_pairs(alloc, bytes)?;
        Ok(Text { pairs })
    }

    /// The number of pairs, each value of `TargetAddress` being one.
    pub fn len(&self) -> usize
        ensures count { result ≡ length self.now }
        // Every text is one that some bytes mean.
        ensures meaning { IsMeaning self.now }
    {
        self.pairs.len()
    }

    /// The key and the value at this place, from 0, in the canonical order: the byte order of the
    /// keys, the values of `TargetAddress` as they came. `None` past the end.
    pub fn pair(&self, n: usize) -> Option<(&'a [u8], Value<'a>)>
        ensures pair { option_map (λ p. (p.0.now, typed p.1)) result ≡ slice_get self.now n }
    {
        let pair = self.pairs.get(n)?;
        Some((pair.key, pair.value))
    }

    /// The pairs in the canonical order.
    pub fn pairs(&self) -> &[Pair<'a>]
        ensures pairs { all_shown result.now ≡ self.now }
        // Every text is one that some bytes mean.
        ensures meaning { IsMeaning self.now }
    {
        self.pairs.as_slice()
    }

    /// The i-th value of the key, from 0, and `None` where it has no more. Only `TargetAddress` can
    /// have more than one (RFC 7143, section 13.8). The pairs are looked through one by one.
    pub fn get(&self, key: &[u8], i: usize) -> Option<Value<'a>>
        ensures value { option_map typed result ≡ slice_get (values_of key.now self.now) i }
    {
        value_in(&self.pairs, key, i)
    }

    /// The same text but for these keys, over the same bytes. The only error is that memory for its
    /// list of pairs ran out.
    pub fn without(&self, alloc: Global, keys: &[&[u8]]) -> Result<Text<'a>, AllocError>
        ensures rest { IfOk result (λ text. text ≡
            without (map (λ key. key.now) keys.now) self.now) }
    {
        let pairs = pairs_without(alloc, &self.pairs, keys)?;
        Ok(Text { pairs })
    }

    /// How many bytes the canonical text has. They are at most those that were read.
    pub fn canonical_len(&self) -> usize
        ensures len { result ≡ length (canonical_text self.now) }
    {
        pairs_len(&self.pairs)
    }

    /// Appends the canonical text, of `canonical_len` bytes: `key=value` and one byte 0 for each
    /// pair, in the byte order of the keys, with canonical numerals.
    ///
    /// When out of memory, `out` is unchanged. The form is that of RFC 7143, section 6.1; that
    /// it is this one of a map's texts is own rule.
    pub fn write(&self, out: &mut Vec<u8>) -> Result<(), AllocError>
        ensures ok { OnOk result (out.new.items ≡ out.old.items ++ canonical_text self.now) }
        ensures err { OnErr result (out.new.items ≡ out.old.items) }
    {
        write_pairs(&self.pairs, out)
    }
}

/// The i-th value of the key among these pairs, from 0, and `None` where it has no more. The pairs
/// are looked through one by one.
pub fn value_in<'a>(pairs: &[Pair<'a>], key: &[u8], i: usize) -> Option<Value<'a>>
    ensures { option_map typed result ≡ slice_get (values_of key.now (all_shown pairs.now)) i }
{
    let pair = pairs.iter().filter(|pair| pair.key == key).nth(i)?;
    Some(pair.value)
}

/// The text that bytes mean, if they mean one (RFC 7143, section 6.1). Its canonical text is no
/// longer. The only error is that memory ran out.
pub fn read_text<'a>(alloc: Global, bytes: &'a [u8]) -> Result<Option<Text<'a>>, AllocError>
    ensures means { IfOk result (λ text. text ≡ text_in bytes.now) }
    ensures no_longer { IfOk result (λ text. IfSome text
        (λ pairs. length (canonical_text pairs) ≤ length bytes.now)) }
{
    match Text::read(alloc, bytes) {
        Ok(text) => Ok(Some(text)),
        Err(fault) => no_text(fault),
    }
}

// What is left of bytes that were not read as a text.
fn no_text<'a>(fault: TextFault) -> Result<Option<Text<'a>>, AllocError>
    ensures ok { IfOk result (λ text. text ≡ None) }
    ensures memory { OnOk result (fault ≡ TextFault.NoMemory → ⊥) }
{
    match fault {
        TextFault::NoMemory => Err(AllocError),
        _ => Ok(None),
    }
}
