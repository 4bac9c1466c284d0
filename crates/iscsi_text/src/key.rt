//! Keys, and the kinds of value that the known ones have (RFC 7143, sections 6.1 and 13).

ghost use Rattle.std.specs.Prelude.{◌≡◌, ◌↔◌, IsTrue, [], map, slice_index_or};
ghost use Rattle.iscsi_text.specs.Key.{declared, known_keys, kind_in, kind_of, IsKey, IsKeyByte};
ghost use Rattle.iscsi_text.specs.inner.Inside.{row_shown};

use crate::negotiated::{NEGOTIATED_KEYS, NegKey};

/// What kind of value a known key has (RFC 7143, section 6.1).
#[derive(Clone, Copy, Debug, PartialEq, Eq)]
pub enum KeyKind {
    /// A number below 2^64, in decimal or hexadecimal.
    Number,
    /// `Yes` or `No`.
    Boolean,
    /// One item or more, each of one byte or more, separated by commas.
    Items,
    /// Bytes of no further form.
    Plain,
}

// The known keys that aren't negotiated, each with the kind of its value (RFC 7143, section 13; the
// markers' keys are of RFC 3720, appendix A).
const DECLARED: [(&[u8], KeyKind); 13] = [
    (b"MaxRecvDataSegmentLength", KeyKind::Number),
    (b"TargetPortalGroupTag", KeyKind::Number),
    (b"IFMarker", KeyKind::Boolean),
    (b"OFMarker", KeyKind::Boolean),
    (b"InitiatorName", KeyKind::Plain),
    (b"TargetName", KeyKind::Plain),
    (b"InitiatorAlias", KeyKind::Plain),
    (b"TargetAlias", KeyKind::Plain),
    (b"TargetAddress", KeyKind::Plain),
    (b"SessionType", KeyKind::Plain),
    (b"IFMarkInt", KeyKind::Plain),
    (b"OFMarkInt", KeyKind::Plain),
    (b"SendTargets", KeyKind::Plain),
];

/// How many keys are known.
pub const KNOWN_KEYS: usize = NEGOTIATED_KEYS + DECLARED.len();

/// The known key at this place: the negotiated ones in the order of `NegKey::ALL`, and then the
/// others. It is empty for a place past the last.
#[tactic(auto, using(crate::proofs::KnownKeyLemmas::negotiated_name, crate::proofs::KnownKeyLemmas::declared_name))]
pub fn known_key(place: usize) -> &'static [u8]
    ensures name { result.now ≡ slice_index_or known_keys place [] }
{
    if place < NEGOTIATED_KEYS {
        NegKey::ALL[place].name()
    } else {
        declared_key(place - NEGOTIATED_KEYS)
    }
}

// The known key at this place among those that aren't negotiated, and none past the last.
#[tactic(auto)]
fn declared_key(place: usize) -> &'static [u8]
    ensures { result.now ≡ slice_index_or (map (λ key. key.0) declared) place [] }
{
    if place < DECLARED.len() {
        DECLARED[place].0
    } else {
        b""
    }
}

/// The kind of value that a known key has, and `None` for an unknown one.
///
/// Known are 27 keys, and case counts. The keys and their types are those of RFC 7143, section 13,
/// and `AuthMethod` of section 12.1. The markers' keys `IFMarker`, `OFMarker`, `IFMarkInt` and
/// `OFMarkInt` are of RFC 3720, appendix A. Which keys are plain here is own rule.
pub fn key_kind(key: &[u8]) -> Option<KeyKind>
    ensures kind { result ≡ kind_of key.now }
{
    match NegKey::named(key) {
        Some(negotiated) => Some(negotiated.rule().kind()),
        None => kind_among(&DECLARED, key),
    }
}

// The kind of the first of these keys that has this name.
fn kind_among(keys: &[(&[u8], KeyKind)], name: &[u8]) -> Option<KeyKind>
    ensures { result ≡ kind_in (map row_shown keys.now) name.now }
{
    let found = keys.iter().find(|known| known.0 == name)?;
    Some(found.1)
}

/// Whether the bytes may stand as a key (RFC 7143, section 6.1).
pub fn is_key(key: &[u8]) -> bool
    ensures { IsTrue result ↔ IsKey key.now }
{
    key.len() <= 63
        && key.first().is_some_and(|b| b.is_ascii_alphabetic())
        && key.iter().all(|b| is_key_byte(*b))
}

fn is_key_byte(byte: u8) -> bool
    ensures { IsTrue result ↔ IsKeyByte byte }
{
    byte.is_ascii_alphanumeric() || matches!(byte, b'.' | b'-' | b'+' | b'@' | b'_' | b'#')
}
