//! The target's answer to a login text (RFC 7143, section 6.2).

ghost use Rattle.std.specs.Prelude.{◌≡◌, ◌++◌, ◌∷◌, [], IfOk, OnOk, IsSome};
ghost use Rattle.std.specs.Option.{option_map};
ghost use Rattle.iscsi_text.specs.Value.{typed};
ghost use Rattle.iscsi_text.specs.Text.{values_of, IsInOrder, ArrangesPairs};
ghost use Rattle.iscsi_text.specs.Canonical.{canonical_text};
ghost use Rattle.iscsi_text.specs.Shown.{shown, all_shown};
ghost use Rattle.iscsi_login.specs.Answer.{answer_to, other_answer, answer_value, answers_to, declarations, answer};

use crate::negotiation::{answered_value, result, word};
use crate::preferences::Preferences;
use iscsi_text::{NegKey, Pair, Session, Text, Value, key_kind, write_pairs};
use std::alloc::{AllocError, Global};

/// The canonical answer to a login text: `answer_pairs`, as bytes.
///
/// The only error is that memory ran out; nothing else changes.
pub fn answer_text(
    alloc: Global,
    text: &Text,
    preferences: &Preferences,
    session: Session,
    tag: Option<u16>,
    max_recv: Option<u32>,
) -> Result<Vec<u8>, AllocError>
    ensures answer { IfOk result (λ bytes. bytes.items ≡
        canonical_text (answer session preferences.now tag max_recv text.now)) }
{
    let pairs = answer_pairs(alloc, text, preferences, session, tag, max_recv)?;
    let mut out = Vec::new(alloc);
    write_pairs(&pairs, &mut out)?;
    Ok(out)
}

/// The pairs of the answer to a login text, in the byte order of their keys.
///
/// Each key of the text is answered by its kind:
/// - A negotiated key is answered by its result, or in a discovery session by `Irrelevant` if the
///   key has no use there.
/// - `IFMarker` and `OFMarker` are answered by `No`.
/// - `IFMarkInt`, `OFMarkInt` and `SendTargets` are answered by `Reject`.
/// - A declared key is answered by nothing.
/// - An unknown key is answered by `NotUnderstood`.
///
/// The target's portal group tag and the most bytes that it takes in one segment are declared where
/// they are given. The only error is that memory ran out; nothing else changes (RFC 7143, sections
/// 6.2, 13.9 and 13.12; which known keys are rejected is own rule).
pub fn answer_pairs<'a>(
    alloc: Global,
    text: &Text<'a>,
    preferences: &Preferences,
    session: Session,
    tag: Option<u16>,
    max_recv: Option<u32>,
) -> Result<Vec<Pair<'a>>, AllocError>
    ensures answer { IfOk result (λ pairs. all_shown pairs.items ≡
        answer session preferences.now tag max_recv text.now) }
{
    let mut pairs = declarations(alloc, tag, max_recv)?;
    for offered in text.pairs() {
        add_answer(&mut pairs, offered, preferences, session)?;
    }
    Ok(pairs)
}

// What the target declares of itself.
fn declarations<'a>(
    alloc: Global,
    tag: Option<u16>,
    max_recv: Option<u32>,
) -> Result<Vec<Pair<'a>>, AllocError>
    ensures { IfOk result (λ pairs. all_shown pairs.items ≡ declarations tag max_recv) }
{
    let mut pairs = Vec::new(alloc);
    if let Some(bytes) = max_recv {
        pairs.push(Pair {
            key: b"MaxRecvDataSegmentLength",
            value: Value::Number(u64::from(bytes)),
        })?;
    }
    if let Some(tag) = tag {
        pairs.push(Pair {
            key: b"TargetPortalGroupTag",
            value: Value::Number(u64::from(tag)),
        })?;
    }
    Ok(pairs)
}

// Puts the answer to an offered pair among the pairs, if it has one.
fn add_answer<'a>(
    pairs: &mut Vec<Pair<'a>>,
    offered: &Pair<'a>,
    preferences: &Preferences,
    session: Session,
) -> Result<(), AllocError>
    requires in_order { IsInOrder (all_shown pairs.old.items) }
    requires new { IsSome (answer_value session preferences.now
        offered.now.key.now (typed offered.now.value)) →
        values_of offered.now.key.now (all_shown pairs.old.items) ≡ [] }
    ensures { OnOk result (ArrangesPairs
        (all_shown pairs.old.items ++ answers_to session preferences.now (shown offered.now))
        (all_shown pairs.new.items)) }
{
    let key = offered.key;
    if let Some(value) = answer_value(key, &offered.value, preferences, session) {
        add(pairs, Pair { key, value })?;
    }
    Ok(())
}

// Puts a pair of a new key among the pairs.
fn add<'a>(pairs: &mut Vec<Pair<'a>>, pair: Pair<'a>) -> Result<(), AllocError>
    requires in_order { IsInOrder (all_shown pairs.old.items) }
    requires new { values_of pair.key.now (all_shown pairs.old.items) ≡ [] }
    ensures { OnOk result (ArrangesPairs
        (all_shown pairs.old.items ++ shown pair.entry ∷ [])
        (all_shown pairs.new.items)) }
{
    let at = pairs.partition_point(|other| other.key.cmp(&pair.key).is_le());
    pairs.insert(at, pair)?;
    Ok(())
}

// The answer to a value of this key, if it has one.
fn answer_value(
    key: &[u8],
    offer: &Value,
    preferences: &Preferences,
    session: Session,
) -> Option<Value<'static>>
    ensures { option_map typed result ≡
        answer_value session preferences.now key.now (typed offer.now) }
{
    match NegKey::named(key) {
        Some(negotiated) => Some(answer_to(negotiated, offer, preferences, session)),
        None => other_answer(key),
    }
}

const ANSWERED_NO: [&[u8]; 2] = [b"IFMarker", b"OFMarker"];

const REJECTED: [&[u8]; 3] = [b"IFMarkInt", b"OFMarkInt", b"SendTargets"];

// The answer to a key that isn't negotiated, whatever its value.
fn other_answer(key: &[u8]) -> Option<Value<'static>>
    ensures { option_map typed result ≡ other_answer key.now }
{
    if ANSWERED_NO.contains(&key) {
        Some(Value::Boolean(false))
    } else if REJECTED.contains(&key) {
        Some(Value::Plain(b"Reject"))
    } else if key_kind(key).is_some() {
        None
    } else {
        Some(Value::Plain(b"NotUnderstood"))
    }
}

// The answer to an offer.
fn answer_to(
    key: NegKey,
    offer: &Value,
    preferences: &Preferences,
    session: Session,
) -> Value<'static>
    ensures { typed result ≡ answer_to session preferences.now key (typed offer.now) }
{
    if key.is_irrelevant(session) {
        word(key.rule(), b"Irrelevant")
    } else {
        answered_value(key.rule(), result(key, offer, preferences))
    }
}
