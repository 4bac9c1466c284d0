//! Reading a text into its pairs, in the order of their keys (RFC 7143, section 6.1).

ghost use Rattle.std.specs.Prelude.{◌≡◌, ◌≢◌, ◌↔◌, IsTrue, [], IfSome, IfNone, IfOk, IfErr, OnOk, OnErr, option_map};
ghost use Rattle.iscsi_text.specs.Text.{Pairs, IsInOrder, IsSingle, ArrangesPairs, HasNo, TextMeans};
ghost use Rattle.iscsi_text.specs.Fault.{IsFirstFault};
ghost use Rattle.iscsi_text.specs.Reading.{in_order};
ghost use Rattle.iscsi_text.specs.Shown.{shown, all_shown, SplitsAtByte};
ghost use Rattle.iscsi_text.specs.inner.Inside.{follows, ReadsEntry, IsWrong, GathersRow};

use crate::fault::TextFault;
use crate::key::{is_key, key_kind};
use crate::pair::Pair;
use crate::value::Value;
use std::alloc::{AllocError, Global};
use std::cmp::Ordering;
use std::collections::BTreeSet;

/// The pairs of a text, in the order of their keys, or its first fault.
pub fn read_pairs<'a>(alloc: Global, bytes: &'a [u8]) -> Result<Vec<Pair<'a>>, TextFault>
    ensures found { IfOk result (λ pairs. TextMeans bytes.now (all_shown pairs.items)) }
    ensures fault { IfErr result (λ fault. fault ≢ TextFault.NoMemory →
        IsFirstFault bytes.now fault) }
{
    let mut pairs = Vec::new(alloc);
    let ended_by = gather(bytes, &mut pairs)?;
    sort(&mut pairs)?;
    if !ascends(&pairs) {
        // A key is repeated. Which pair is the first to do so, the sorted list no longer tells.
        drop(pairs);
        return Err(first_fault(alloc, bytes)?);
    }
    match ended_by {
        Some(fault) => Err(fault),
        None => Ok(pairs),
    }
}

// Appends the pairs in the order of the text, keys that are repeated too, up to the first fault of
// another kind, which is the answer.
fn gather<'a>(bytes: &'a [u8], pairs: &mut Vec<Pair<'a>>) -> Result<Option<TextFault>, AllocError>
    requires { pairs.old.items ≡ [] }
    ensures { IfOk result (GathersRow bytes.now (all_shown pairs.new.items)) }
{
    let mut rest = bytes;
    while !rest.is_empty() {
        match read_entry(rest, bytes.len() - rest.len()) {
            Ok((pair, more)) => {
                if let Some(pair) = pair {
                    pairs.push(pair)?;
                }
                rest = more;
            }
            Err(fault) => return Ok(Some(fault)),
        }
    }
    Ok(None)
}

// Puts pairs in the order of their keys. Those of one key stay in their order.
// `sort_pairs` with the clause that std's sort has, from which its own follows.
fn sort(pairs: &mut Vec<Pair>) -> Result<(), AllocError>
    ensures ok { OnOk result (ArrangesPairs (all_shown pairs.old.items)
        (all_shown pairs.new.items)) }
    ensures err { OnErr result (pairs.new.items ≡ pairs.old.items) }
{
    pairs.sort_by_key(|pair| pair.key)?;
    Ok(())
}

/// Puts pairs in the byte order of their keys. Those of one key stay in their order.
///
/// More than 20 pairs take memory for a second list while they are sorted. When out of memory, the
/// pairs are as they were.
#[tactic(auto, using(crate::proofs::OrderLemmas::arranged_is))]
pub fn sort_pairs(pairs: &mut Vec<Pair>) -> Result<(), AllocError>
    ensures ok { OnOk result (all_shown pairs.new.items ≡ in_order (all_shown pairs.old.items)) }
    ensures err { OnErr result (pairs.new.items ≡ pairs.old.items) }
{
    sort(pairs)
}

const TARGET_ADDRESS: &[u8] = b"TargetAddress";

// Whether pairs are in the order of their keys, and no key is repeated that may not be.
fn ascends(pairs: &[Pair]) -> bool
    ensures { IsTrue result ↔ (IsInOrder (all_shown pairs.now) × IsSingle (all_shown pairs.now)) }
{
    pairs.is_sorted_by(|first, second| may_follow(first, second))
}

// Whether the second pair may come right behind the first.
fn may_follow(first: &Pair, second: &Pair) -> bool
    ensures { result ≡ follows (shown first.now) (shown second.now) }
{
    match first.key.cmp(second.key) {
        Ordering::Less => true,
        Ordering::Equal => first.key == TARGET_ADDRESS,
        Ordering::Greater => false,
    }
}

// The first fault of a text that has one.
fn first_fault(alloc: Global, bytes: &[u8]) -> Result<TextFault, AllocError>
    requires { (m : Pairs) → ¬ TextMeans bytes.now m }
    ensures { IfOk result (IsFirstFault bytes.now) }
{
    let mut keys = BTreeSet::new(alloc);
    let mut rest = bytes;
    loop {
        let at = bytes.len() - rest.len();
        match read_entry(rest, at) {
            Ok((pair, more)) => {
                if let Some(pair) = pair {
                    if pair.key != TARGET_ADDRESS && !keys.insert(pair.key)? {
                        return Ok(TextFault::Repeated(at));
                    }
                }
                rest = more;
            }
            Err(fault) => return Ok(fault),
        }
    }
}

// The first pair of the rest of a text, `None` for a spare byte, and what is behind it. Or what is
// wrong with it, at the given place.
fn read_entry<'a>(rest: &'a [u8], at: usize) -> Result<(Option<Pair<'a>>, &'a [u8]), TextFault>
    requires { rest.now ≢ [] }
    ensures found { IfOk result (λ r. ReadsEntry rest.now (option_map shown r.0) r.1.now) }
    ensures fault { IfErr result (IsWrong rest.now at) }
{
    let Some((entry, more)) = split_at_byte(rest, 0) else {
        return Err(TextFault::Unterminated(at));
    };
    if entry.is_empty() {
        return Ok((None, more));
    }
    let Some((key, value)) = split_at_byte(entry, b'=') else {
        return Err(TextFault::NoEquals(at));
    };
    if !is_key(key) {
        return Err(TextFault::BadKey(at));
    }
    let value = Value::read(key_kind(key), value);
    Ok((Some(Pair { key, value }), more))
}

/// What stands before the first such byte, and what stands behind it.
pub fn split_at_byte(bytes: &[u8], byte: u8) -> Option<(&[u8], &[u8])>
    ensures found { IfSome result (λ parts. SplitsAtByte bytes.now byte parts.0.now parts.1.now) }
    ensures none { IfNone result (HasNo byte bytes.now) }
{
    let at = bytes.iter().position(|b| *b == byte)?;
    Some((&bytes[..at], &bytes[at + 1..]))
}
