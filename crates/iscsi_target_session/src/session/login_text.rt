//! What a login text declares, and why it is refused (RFC 7143, sections 6.3, 11.13.5 and 13). One
//! file, since all of it reads the same text.

ghost use Rattle.std.specs.Prelude.{◌≡◌, ◌<◌, ◌≤◌, not, ◌&&◌, ◌||◌, [], false, None, Some, is_none, IfSome, IfOk, length, codes};
ghost use Rattle.std.specs.Option.{option_map};
ghost use Rattle.std.specs.Str.{bytes_eq};
ghost use Rattle.iscsi_text.specs.Key.{known_keys, target_address};
ghost use Rattle.iscsi_text.specs.Value.{Plain, typed};
ghost use Rattle.iscsi_text.specs.Canonical.{canonical_text};
ghost use Rattle.iscsi_text.specs.Reading.{has_key};
ghost use Rattle.iscsi_login.specs.Answer.{DeclaresWell, max_recv_key};
ghost use Rattle.scsi_disk.specs.Plan.{first_reason};
ghost use Rattle.iscsi_target_session.specs.Configured.{is_allowed};
ghost use Rattle.iscsi_target_session.specs.LoginText.{repeats_key, seen_with, is_given_name, name_in, initiator_for, login_value, is_bad_length, session_named, session_in, session_for, negotiated_as, is_normal, names_target, demands_authentication, declared_tag, declared_length, answer_pairs, text_refusals};

use super::Session;
use crate::status::Status;
use iscsi_login::{Answered, NegKey, Session as SessionType, Stage, declares_well, result};
use iscsi_pdu::LOGIN_SEGMENT;
use iscsi_text::{KNOWN_KEYS, Text, Value, known_key};
use std::alloc::{AllocError, Global};

impl Session {
    // Why a text is refused that has this answer, if it is.
    pub(super) fn text_refusal(&self, text: &Text<'_>, answer: &[u8]) -> Option<Status>
        requires { answer.now ≡ canonical_text (answer_pairs self.now text.now) }
        ensures refusal { result ≡ first_reason (text_refusals self.now text.now) }
        ensures class { IfSome result (λ why. 0 < why.class) }
        ensures declares { result ≡ None → DeclaresWell text.now }
        ensures short { result ≡ None → length answer.now ≤ 8192 }
    {
        if repeats_key(&self.seen_keys, text) {
            return Some(Status::INITIATOR_ERROR);
        }
        if self.lacks_initiator(text) {
            return Some(Status::MISSING_PARAMETER);
        }
        if self.has_other_type(text) {
            return Some(Status::UNSUPPORTED_SESSION_TYPE);
        }
        if self.lacks_target(text) {
            return Some(Status::MISSING_PARAMETER);
        }
        if self.names_other_target(text) {
            return Some(Status::TARGET_NOT_FOUND);
        }
        if self.demands_authentication(text) {
            return Some(Status::AUTHENTICATION_FAILURE);
        }
        if has_bad_length(text) {
            return Some(Status::INITIATOR_ERROR);
        }
        // The answer has to fit into one segment (own rule).
        if answer.len() > LOGIN_SEGMENT as usize {
            return Some(Status::OUT_OF_RESOURCES);
        }
        if self.has_unlisted_initiator(text) {
            return Some(Status::AUTHORIZATION_FAILURE);
        }
        None
    }

    // Whether the first text has no initiator's name.
    fn lacks_initiator(&self, text: &Text<'_>) -> bool
        ensures { result ≡ (not self.now.has_text
            && not (is_given_name (login_value (codes "InitiatorName") text.now))) }
    {
        !self.has_text && !has_initiator_name(text)
    }

    // Whether the first text has the name of an initiator that may not log in.
    fn has_unlisted_initiator(&self, text: &Text<'_>) -> bool
        ensures { result ≡ (not self.now.has_text && not (is_allowed self.now.settings.extras
            (name_in (login_value (codes "InitiatorName") text.now)))) }
    {
        !self.has_text && !self.config.is_allowed(name_of(text))
    }

    // Whether the first text names a session of neither type.
    fn has_other_type(&self, text: &Text<'_>) -> bool
        ensures { result ≡ (not self.now.has_text && is_none (session_in text.now)) }
    {
        !self.has_text && session_in(text).is_none()
    }

    // Whether the text is the first one of a normal session.
    fn wants_target(&self, text: &Text<'_>) -> bool
        ensures { result ≡ (not self.now.has_text && is_normal (session_for self.now text.now)) }
    {
        !self.has_text && matches!(self.session_for(text), SessionType::Normal)
    }

    // Whether the first text of a normal session has no target's name.
    fn lacks_target(&self, text: &Text<'_>) -> bool
        ensures { result ≡ ((not self.now.has_text && is_normal (session_for self.now text.now))
            && is_none (login_value (codes "TargetName") text.now)) }
    {
        self.wants_target(text) && value_of(text, b"TargetName").is_none()
    }

    // Whether the first text of a normal session has another target's name.
    fn names_other_target(&self, text: &Text<'_>) -> bool
        ensures { result ≡ ((not self.now.has_text && is_normal (session_for self.now text.now))
            && not (names_target self.now.settings.name
            (login_value (codes "TargetName") text.now))) }
    {
        self.wants_target(text) && !names_target(self.config.name(), text)
    }

    // The type of session once this text is whole: the first text settles it.
    pub(super) fn session_for(&self, text: &Text<'_>) -> SessionType
        ensures { result ≡ session_for self.now text.now }
    {
        if self.has_text {
            self.session_type
        } else {
            session_in(text).unwrap_or(SessionType::Normal)
        }
    }

    // The type of session whose keys are negotiated: a normal one where a portal is told.
    pub(super) fn negotiated_as(&self, text: &Text<'_>) -> SessionType
        ensures { result ≡ negotiated_as self.now text.now }
    {
        if self.config.has_portal() {
            SessionType::Normal
        } else {
            self.session_for(text)
        }
    }

    // The initiator's name once this text is whole, to keep: the first text settles it.
    pub(super) fn initiator_for(
        &self,
        alloc: Global,
        text: &Text<'_>,
    ) -> Result<Vec<u8>, AllocError>
        ensures { IfOk result (λ name. name.items ≡ initiator_for self.now text.now) }
    {
        let name = if self.has_text {
            self.initiator_name.as_slice()
        } else {
            name_of(text)
        };
        let mut kept = Vec::new(alloc);
        kept.extend_from_slice(name)?;
        Ok(kept)
    }

    // The tag of the portal group, which goes with the first text of a normal session.
    pub(super) fn declared_tag(&self, text: &Text<'_>) -> Option<u16>
        ensures { result ≡ declared_tag self.now text.now }
    {
        if self.wants_target(text) {
            Some(self.config.group())
        } else {
            None
        }
    }

    // What the target takes in one segment, which goes with the first text of the operational
    // stage.
    pub(super) fn declared_length(&self) -> Option<u32>
        ensures { result ≡ declared_length self.now }
    {
        if matches!(self.stage, Stage::Operational) && !self.has_operational_text {
            Some(self.config.preferences().max_recv)
        } else {
            None
        }
    }

    // Whether AuthMethod is offered, and without `None`.
    fn demands_authentication(&self, text: &Text<'_>) -> bool
        ensures { result ≡ demands_authentication self.now.settings.preferences
            (login_value (codes "AuthMethod") text.now) }
    {
        match value_of(text, b"AuthMethod") {
            Some(offer) => matches!(
                result(NegKey::AuthMethod, &offer, self.config.preferences()),
                Answered::Reject
            ),
            None => false,
        }
    }
}

// The value that a text has of a key, if it has one.
#[tactic(auto, using(crate::proofs::LoginTextLemmas::first_is))]
fn value_of<'a>(text: &Text<'a>, key: &[u8]) -> Option<Value<'a>>
    ensures { option_map typed result ≡ login_value key.now text.now }
{
    text.get(key, 0)
}

// Whether the text has the key.
#[tactic(auto, using(crate::proofs::LoginTextLemmas::has_key_is))]
fn has_key(text: &Text<'_>, key: &[u8]) -> bool
    ensures { result ≡ has_key key.now text.now }
{
    value_of(text, key).is_some()
}

// Whether a length is declared that may not be.
fn has_bad_length(text: &Text<'_>) -> bool
    ensures value { result ≡ is_bad_length (login_value max_recv_key text.now) }
    ensures declares { result ≡ false → DeclaresWell text.now }
{
    !declares_well(text)
}

// Whether a known key that may stand once was seen before, and stands again.
fn repeats_key(seen: &[bool; KNOWN_KEYS], text: &Text<'_>) -> bool
    ensures { result ≡ repeats_key known_keys seen.now text.now }
{
    for n in 0..KNOWN_KEYS {
        if is_repeated(seen[n], text, known_key(n)) {
            return true;
        }
    }
    false
}

// Whether a key may stand once, was seen before and stands again.
fn is_repeated(was: bool, text: &Text<'_>, key: &[u8]) -> bool
    ensures { result ≡ (was && (not (bytes_eq key.now target_address)
        && has_key key.now text.now)) }
{
    was && (key != b"TargetAddress".as_slice() && has_key(text, key))
}

/// Of each known key, whether it was seen before or stands in this text.
pub fn seen_with(seen: &[bool; KNOWN_KEYS], text: &Text<'_>) -> [bool; KNOWN_KEYS]
    ensures { result ≡ seen_with known_keys seen.now text.now }
{
    let mut now = *seen;
    for n in 0..KNOWN_KEYS {
        now[n] = is_seen(seen[n], text, known_key(n));
    }
    now
}

// Whether a key was seen before or stands in this text.
fn is_seen(was: bool, text: &Text<'_>, key: &[u8]) -> bool
    ensures { result ≡ (was || has_key key.now text.now) }
{
    was || has_key(text, key)
}

// Whether there is an initiator's name that isn't empty.
fn has_initiator_name(text: &Text<'_>) -> bool
    ensures { result ≡ is_given_name (login_value (codes "InitiatorName") text.now) }
{
    match value_of(text, b"InitiatorName") {
        Some(Value::Plain(name)) => !name.is_empty(),
        _ => false,
    }
}

// The initiator's name, if there is one; else it's empty.
fn name_of<'a>(text: &Text<'a>) -> &'a [u8]
    ensures { result.now ≡ name_in (login_value (codes "InitiatorName") text.now) }
{
    match value_of(text, b"InitiatorName") {
        Some(Value::Plain(name)) => name,
        _ => &[],
    }
}

// The type of session that a text names, which is normal where it names none.
fn session_in(text: &Text<'_>) -> Option<SessionType>
    ensures { result ≡ session_in text.now }
{
    match value_of(text, b"SessionType") {
        None => Some(SessionType::Normal),
        Some(Value::Plain(name)) => session_named(name),
        Some(_) => None,
    }
}

// The type of session of this name.
fn session_named(name: &[u8]) -> Option<SessionType>
    ensures { result ≡ session_named (Some (Plain name.now)) }
{
    if name == b"Normal".as_slice() {
        Some(SessionType::Normal)
    } else if name == b"Discovery".as_slice() {
        Some(SessionType::Discovery)
    } else {
        None
    }
}

// Whether the text names the target of this name.
fn names_target(name: &[u8], text: &Text<'_>) -> bool
    ensures { result ≡ names_target name.now (login_value (codes "TargetName") text.now) }
{
    match value_of(text, b"TargetName") {
        Some(Value::Plain(other)) => name == other,
        _ => false,
    }
}
