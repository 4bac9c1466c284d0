//! Which answers an initiator takes (RFC 7143, section 6.2).

ghost use Rattle.std.specs.Prelude.{◌≡◌, ◌≤◌, length, find, IfSome};
ghost use Rattle.std.specs.Option.{option_map};
ghost use Rattle.iscsi_text.specs.Value.{typed};
ghost use Rattle.iscsi_text.specs.Shown.{shown, all_shown};
ghost use Rattle.iscsi_login.specs.Answer.{DeclaresWell};
ghost use Rattle.iscsi_text.specs.Reading.{in_order};
ghost use Rattle.iscsi_login.specs.Offers.{proposed, offers_at};
ghost use Rattle.iscsi_login.specs.Check.{bad_key, is_bad, is_unanswered, key_or, may_answer, may_declare};

use crate::negotiation::is_legal;
use crate::offers::{Offers, said};
use crate::params::is_segment_length;
use crate::stage::Stage;
use iscsi_text::{NegKey, Pair, Text, Value, value_in};

impl Offers<'_> {
    /// The key for which the initiator refuses this answer to its text of a stage, in a login that
    /// started at `start`; `None` for an answer that it takes.
    ///
    /// The key is that of the first pair that may not stand there. Such a pair is one of these:
    /// - Its key has a result function and wasn't offered.
    /// - Its key has a result function, and its value is no legal answer.
    /// - Its key has no result function, and is one that a target may not declare.
    /// - The pair has `MaxRecvDataSegmentLength` with anything but a number from 512 to 16777215.
    ///
    /// If there is no such pair, the key is the first offered one with a result function that the
    /// answer leaves out. See RFC 7143, sections 6.2, 13.6, 13.8, 13.9 and 13.12; the order is own
    /// rule.
    pub fn bad_key<'b>(&self, start: Stage, stage: Stage, answer: &Text<'b>) -> Option<&'b [u8]>
        ensures key { option_map (λ key. key.now) result ≡
            bad_key (in_order (offers_at (proposed self.now) start stage)) answer.now }
        // No key of a text is longer, and no negotiated one.
        ensures short { IfSome result (λ key. length key.now ≤ 63) }
        // So an answer that is taken may be held.
        ensures declares { result ≡ None → DeclaresWell answer.now }
    {
        match stage {
            Stage::Security => bad_key(said(&self.security_pairs(), self.session), answer),
            Stage::Operational | Stage::Full => match start {
                Stage::Operational => bad_key(said(&self.single_pairs(), self.session), answer),
                Stage::Security | Stage::Full => bad_key(&self.operational_pairs(), answer),
            },
        }
    }
}

// The key for which the answer to these offers is refused.
fn bad_key<'b>(offered: &[Pair], answer: &Text<'b>) -> Option<&'b [u8]>
    ensures key { option_map (λ key. key.now) result ≡
        bad_key (all_shown offered.now) answer.now }
    ensures short { IfSome result (λ key. length key.now ≤ 63) }
    ensures declares { result ≡ None → DeclaresWell answer.now }
{
    match first_bad(offered, answer.pairs()) {
        Some(key) => Some(key),
        None => first_unanswered(answer, offered),
    }
}

// The key of the first pair that may not stand in an answer to these offers.
fn first_bad<'b>(offered: &[Pair], answer: &[Pair<'b>]) -> Option<&'b [u8]>
    ensures { option_map (λ key. key.now) result ≡
        key_or (find (is_bad (all_shown offered.now)) (all_shown answer.now)) None }
{
    let pair = answer.iter().find(|pair| is_bad(offered, pair))?;
    Some(pair.key)
}

// The first offered key that the answer leaves out.
fn first_unanswered(answer: &Text, offered: &[Pair]) -> Option<&'static [u8]>
    ensures { option_map (λ key. key.now) result ≡
        key_or (find (is_unanswered answer.now) (all_shown offered.now)) None }
{
    let pair = offered.iter().find(|pair| is_unanswered(answer, pair))?;
    let key = NegKey::named(pair.key)?;
    Some(key.name())
}

// Whether the pair may not stand in an answer to these offers.
fn is_bad(offered: &[Pair], pair: &Pair) -> bool
    ensures { result ≡ is_bad (all_shown offered.now) (shown pair.now) }
{
    match NegKey::named(pair.key) {
        Some(key) => !may_answer(key, value_in(offered, pair.key, 0), &pair.value),
        None => !may_declare(pair),
    }
}

// Whether the value may answer to what was offered of the key.
fn may_answer(key: NegKey, offer: Option<Value>, answer: &Value) -> bool
    ensures { result ≡ may_answer key (option_map typed offer.entry) (typed answer.now) }
{
    match offer {
        Some(offer) => is_legal(key, &offer, answer),
        None => false,
    }
}

const DECLARABLE: [&[u8]; 4] = [
    b"TargetPortalGroupTag",
    b"TargetAlias",
    b"TargetAddress",
    b"MaxRecvDataSegmentLength",
];

// Whether a target may declare the pair of itself.
fn may_declare(pair: &Pair) -> bool
    ensures { result ≡ may_declare (shown pair.now) }
{
    DECLARABLE.contains(&pair.key)
        && (pair.key != b"MaxRecvDataSegmentLength".as_slice() || is_segment_length(&pair.value))
}

// Whether the key of the pair has a result function, and no value in the answer.
fn is_unanswered(answer: &Text, pair: &Pair) -> bool
    ensures { result ≡ is_unanswered answer.now (shown pair.now) }
{
    NegKey::named(pair.key).is_some() && answer.get(pair.key, 0).is_none()
}
