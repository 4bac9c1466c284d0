//! What an end holds of a login (RFC 7143, section 13).

ghost use Rattle.std.specs.Prelude.{◌≡◌, ◌↔◌, IsTrue, map, IfSome};
ghost use Rattle.iscsi_text.specs.Value.{typed};
ghost use Rattle.iscsi_text.specs.Negotiated.{rule_of, default_of, all_keys, IsWithin};
ghost use Rattle.iscsi_login.specs.Negotiation.{AllowsValue, ArePreferencesInRange, max_recv_range};
ghost use Rattle.iscsi_login.specs.Held.{defaults, first_burst, held_value, number_of, IsHeld};
ghost use Rattle.iscsi_login.specs.Answer.{declared_max_recv, IsSegmentLength, is_segment_length, DeclaresWell, value_after_offers, target_holds, value_after_answer, initiator_holds};

use crate::negotiation::{or_default, result, value};
use crate::preferences::Preferences;
use iscsi_text::{Answered, BYTES, NEGOTIATED_KEYS, NegKey, Session, Text, Value};
use std::marker::Model;

/// The value of each negotiated key, and the most bytes that each end takes in one segment.
///
/// Contracts see it as the list of the values and the two lengths. Each value is one that its key
/// allows, and each length one that may be declared.
#[derive(Debug, Drop)]
pub struct Params {
    values: [Answered; NEGOTIATED_KEYS],
    /// The most bytes that the initiator takes in one segment, 512 to 16777215.
    pub initiator_max_recv: u32,
    /// The most bytes that the target takes in one segment, 512 to 16777215.
    pub target_max_recv: u32,
}

impl Model for Params {
    ghost use Rattle.iscsi_login.specs.Held.{Held, IsHeld};

    ghost Value = { Held };

    ghost view = { λ p. record {
      values = p.values;
      initiator_max_recv = p.initiator_max_recv;
      target_max_recv = p.target_max_recv;
    } };

    ghost invariant = { λ p. IsHeld (record {
      values = p.values;
      initiator_max_recv = p.initiator_max_recv;
      target_max_recv = p.target_max_recv;
    }) };
}

impl Params {
    /// The default of each key, and 8192 bytes in a segment (RFC 7143, sections 13 and 13.12).
    pub fn defaults() -> Params
        ensures defaults { result ≡ defaults }
    {
        Params::declaring(8192)
    }

    /// The defaults, but with `max_recv` as the most bytes that the initiator takes in one segment,
    /// 512 to 16777215.
    ///
    /// These are what an initiator holds before its login, in which it declares that length (RFC
    /// 7143, section 13.12).
    pub fn declaring(max_recv: u32) -> Params
        requires { IsWithin max_recv_range max_recv }
        ensures declares { result ≡ record defaults { initiator_max_recv = max_recv } }
    {
        Params {
            values: default_values(),
            initiator_max_recv: max_recv,
            target_max_recv: 8192,
        }
    }

    /// The held value of a key, which is one that the key allows and so never `Reject`.
    pub fn get(&self, key: NegKey) -> Answered
        ensures value { result ≡ held_value self.now key }
        ensures allowed { AllowsValue (rule_of key) result }
        // So it is of every key, and both lengths may be declared.
        ensures held { IsHeld self.now }
    {
        self.values[key.place()]
    }

    /// How many bytes a write may send before it is asked for more: the lesser of
    /// `FirstBurstLength` and `MaxBurstLength` (RFC 7143, section 13.14).
    pub fn first_burst(&self) -> u32
        ensures bytes { result ≡ first_burst self.now }
    {
        self.number(NegKey::FirstBurstLength)
            .min(self.number(NegKey::MaxBurstLength))
    }

    /// The held number of a key that has numbers, and 0 for another key.
    pub fn number(&self, key: NegKey) -> u32
        ensures number { result ≡ number_of (held_value self.now key) }
    {
        match self.get(key) {
            Answered::Number(n) => n,
            Answered::Flag(_) | Answered::NoneItem | Answered::Reject => 0,
        }
    }

    /// At the target: holds what its answer to this text settles, the length that the text
    /// declares, and the length that the answer declares, if they do.
    ///
    /// What the text declares is to be a length that may be declared: see `declares_well` first.
    pub fn hold_offers(
        &mut self,
        text: &Text,
        preferences: &Preferences,
        session: Session,
        max_recv: Option<u32>,
    )
        requires preferences { ArePreferencesInRange preferences.now }
        requires declared { DeclaresWell text.now }
        requires declares { IfSome max_recv (IsWithin max_recv_range) }
        ensures holds { self.new ≡ target_holds session preferences.now max_recv text.now self.old }
    {
        *self = Params {
            values: self.values_after_offers(text, preferences, session),
            initiator_max_recv: declared_max_recv(text).unwrap_or(self.initiator_max_recv),
            target_max_recv: max_recv.unwrap_or(self.target_max_recv),
        };
    }

    /// At the initiator: holds what this answer settles, the length that the answered text
    /// declared, and the length that the answer declares, if they do.
    ///
    /// An answer that is no value of its key, as `Reject`, settles the default. What the answer
    /// declares is to be a length that may be declared: see `declares_well` first, or
    /// `Offers::bad_key`, which takes no other answer.
    pub fn hold_answer(&mut self, answer: &Text, max_recv: Option<u32>)
        requires declared { DeclaresWell answer.now }
        requires declares { IfSome max_recv (IsWithin max_recv_range) }
        ensures holds { self.new ≡ initiator_holds max_recv answer.now self.old }
    {
        *self = Params {
            values: self.values_after_answer(answer),
            initiator_max_recv: max_recv.unwrap_or(self.initiator_max_recv),
            target_max_recv: declared_max_recv(answer).unwrap_or(self.target_max_recv),
        };
    }

    // What the target holds of each key once it has answered this text.
    fn values_after_offers(
        &self,
        text: &Text,
        preferences: &Preferences,
        session: Session,
    ) -> [Answered; NEGOTIATED_KEYS]
        ensures { result ≡
            map (value_after_offers session preferences.now text.now self.now) all_keys }
    {
        NegKey::ALL.map(|key| self.after_offers(key, text, preferences, session))
    }

    // What the target holds of a key once it has answered this text.
    fn after_offers(
        &self,
        key: NegKey,
        text: &Text,
        preferences: &Preferences,
        session: Session,
    ) -> Answered
        ensures { result ≡ value_after_offers session preferences.now text.now self.now key }
    {
        let Some(offer) = text.get(key.name(), 0) else {
            return self.get(key);
        };
        if key.is_irrelevant(session) {
            return key.default_value();
        }
        or_default(result(key, &offer, preferences), key.default_value())
    }

    // What the initiator holds of each key once it has this answer.
    fn values_after_answer(&self, answer: &Text) -> [Answered; NEGOTIATED_KEYS]
        ensures { result ≡ map (value_after_answer answer.now self.now) all_keys }
    {
        NegKey::ALL.map(|key| self.after_answer(key, answer))
    }

    // What the initiator holds of a key once it has this answer.
    fn after_answer(&self, key: NegKey, answer: &Text) -> Answered
        ensures { result ≡ value_after_answer answer.now self.now key }
    {
        match answer.get(key.name(), 0) {
            Some(answer) => or_default(value(key.rule(), &answer), key.default_value()),
            None => self.get(key),
        }
    }
}

// The default of each key.
fn default_values() -> [Answered; NEGOTIATED_KEYS]
    ensures { result ≡ map default_of all_keys }
{
    NegKey::ALL.map(|key| key.default_value())
}

/// Whether `MaxRecvDataSegmentLength`, if the text has it, is a number from 512 to 16777215
/// (RFC 7143, section 13.12).
pub fn declares_well(text: &Text) -> bool
    ensures declares { IsTrue result ↔ DeclaresWell text.now }
{
    match text.get(b"MaxRecvDataSegmentLength", 0) {
        Some(value) => is_segment_length(&value),
        None => true,
    }
}

// Whether the value is a number of bytes that may be declared.
pub(crate) fn is_segment_length(value: &Value) -> bool
    ensures length { IsTrue result ↔ IsSegmentLength (typed value.now) }
    ensures test { result ≡ is_segment_length (typed value.now) }
{
    match value {
        Value::Number(bytes) => BYTES.contains(*bytes),
        Value::Boolean(_) | Value::Items(_) | Value::Plain(_) | Value::Odd(_) => false,
    }
}

// The most bytes in one segment that a text declares, if it does.
fn declared_max_recv(text: &Text) -> Option<u32>
    requires { DeclaresWell text.now }
    ensures value { result ≡ declared_max_recv text.now }
    ensures within { IfSome result (IsWithin max_recv_range) }
{
    match text.get(b"MaxRecvDataSegmentLength", 0) {
        Some(Value::Number(bytes)) => Some(bytes as u32),
        _ => None,
    }
}
