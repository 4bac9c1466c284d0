//! What the ends make of an offer, and which answers are legal (RFC 7143, section 6.2).

ghost use Rattle.std.specs.Prelude.{◌≡◌, ◌↔◌, IsTrue, ◌==◌};
ghost use Rattle.iscsi_text.specs.Value.{typed};
ghost use Rattle.iscsi_login.specs.Negotiation.{result_of, is_legal, IsLegal, has_none, chosen, value_of, is_answer_word, word, answered_value, or_default};

use crate::preferences::Preferences;
use iscsi_text::{Answered, NegKey, Rule, Value};

/// The value that an offer gives at an end with these preferences, or `Reject`.
///
/// It is the key's function of the offer and the preference: the lesser or greater number, `Yes`
/// where either or both are, `None` where the offered list has it. An offer of another kind, out
/// of the key's range, or without the item `None` is rejected (RFC 7143, sections 6.2 and 13, and
/// 12.1 for `AuthMethod`).
pub fn result(key: NegKey, offer: &Value, preferences: &Preferences) -> Answered
    ensures result { result ≡ result_of key (typed offer.now) preferences.now }
{
    chosen(key.rule(), value(key.rule(), offer), preferences.of(key))
}

/// Whether the answer to this offer is a legal one.
///
/// A legal answer is one of the words `Reject`, `Irrelevant` and `NotUnderstood`, or a value of the
/// key's function. The function gives that value from this offer for some preference that the key
/// allows (RFC 7143, section 6.2).
#[tactic(auto, using(crate::proofs::LegalAnswerLemmas::legal_from, crate::proofs::LegalAnswerLemmas::legal_passes))]
pub fn legal_answer(key: NegKey, offer: &Value, answer: &Value) -> bool
    ensures legal { IsTrue result ↔ IsLegal key (typed offer.now) (typed answer.now) }
{
    is_legal(key, offer, answer)
}

// The test of a legal answer.
pub(crate) fn is_legal(key: NegKey, offer: &Value, answer: &Value) -> bool
    ensures { result ≡ is_legal key (typed offer.now) (typed answer.now) }
{
    if is_word(answer) {
        return true;
    }
    match (
        key.rule(),
        value(key.rule(), offer),
        value(key.rule(), answer),
    ) {
        (Rule::Minimum(_), Answered::Number(offer), Answered::Number(answer)) => answer <= offer,
        (Rule::Maximum(_), Answered::Number(offer), Answered::Number(answer)) => offer <= answer,
        (Rule::Or, Answered::Flag(offer), Answered::Flag(answer)) => !offer || answer,
        (Rule::And, Answered::Flag(offer), Answered::Flag(answer)) => offer || !answer,
        (Rule::NoneItem, Answered::NoneItem, Answered::NoneItem) => matches!(
            answer,
            Value::Items(b"None")
        ),
        _ => false,
    }
}

// The function of a rule.
fn chosen(rule: Rule, offer: Answered, preference: Answered) -> Answered
    ensures { result ≡ chosen rule offer preference }
{
    match (rule, offer, preference) {
        (Rule::Minimum(_), Answered::Number(a), Answered::Number(b)) => Answered::Number(a.min(b)),
        (Rule::Maximum(_), Answered::Number(a), Answered::Number(b)) => Answered::Number(a.max(b)),
        (Rule::Or, Answered::Flag(a), Answered::Flag(b)) => Answered::Flag(a || b),
        (Rule::And, Answered::Flag(a), Answered::Flag(b)) => Answered::Flag(a && b),
        (Rule::NoneItem, Answered::NoneItem, Answered::NoneItem) => Answered::NoneItem,
        _ => Answered::Reject,
    }
}

/// The value that the rule allows and a value of a text stands for, or `Reject`.
pub fn value(rule: Rule, value: &Value) -> Answered
    ensures { result ≡ value_of rule (typed value.now) }
{
    match (rule, value) {
        (Rule::Minimum(range) | Rule::Maximum(range), Value::Number(n)) => {
            if range.contains(*n) {
                Answered::Number(*n as u32)
            } else {
                Answered::Reject
            }
        }
        (Rule::Or | Rule::And, Value::Boolean(b)) => Answered::Flag(*b),
        (Rule::NoneItem, Value::Items(items)) if has_none(items) => Answered::NoneItem,
        _ => Answered::Reject,
    }
}

// Whether one of the items is `None`.
fn has_none(items: &[u8]) -> bool
    ensures { result ≡ has_none items.now }
{
    items
        .split(|b| *b == b',')
        .any(|item| item == b"None".as_slice())
}

const WORDS: [&[u8]; 3] = [b"Reject", b"Irrelevant", b"NotUnderstood"];

// Whether it is one of the three words that answer for a value.
fn is_word(value: &Value) -> bool
    ensures { result ≡ is_answer_word (typed value.now) }
{
    match value {
        Value::Items(bytes) | Value::Plain(bytes) | Value::Odd(bytes) => WORDS.contains(bytes),
        Value::Number(_) | Value::Boolean(_) => false,
    }
}

/// A word as it is read behind a key of this rule.
pub fn word(rule: Rule, bytes: &'static [u8]) -> Value<'static>
    ensures { typed result ≡ word rule bytes.now }
{
    match rule {
        Rule::NoneItem => Value::Items(bytes),
        Rule::Minimum(_) | Rule::Maximum(_) | Rule::Or | Rule::And => Value::Odd(bytes),
    }
}

/// A value, or the word `Reject`, as it is read behind a key of this rule.
pub fn answered_value(rule: Rule, answered: Answered) -> Value<'static>
    ensures { typed result ≡ answered_value rule answered }
{
    match answered {
        Answered::Number(n) => Value::Number(u64::from(n)),
        Answered::Flag(b) => Value::Boolean(b),
        Answered::NoneItem => Value::Items(b"None"),
        Answered::Reject => word(rule, b"Reject"),
    }
}

/// The value that is held of a key: this one, or the default for `Reject`.
pub fn or_default(value: Answered, default: Answered) -> Answered
    ensures { result ≡ or_default value default }
{
    match value {
        Answered::Reject => default,
        Answered::Number(_) | Answered::Flag(_) | Answered::NoneItem => value,
    }
}
