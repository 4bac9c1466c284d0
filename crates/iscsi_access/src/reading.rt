//! What a text has of the keys of the exchange.

ghost use Rattle.std.specs.Prelude.{◌≡◌};
ghost use Rattle.std.specs.Option.{option_map};
ghost use Rattle.iscsi_text.specs.Value.{typed};
ghost use Rattle.iscsi_text.specs.Reading.{number_in};
ghost use Rattle.std.specs.Prelude.{◌==◌, find, is_some, codes};
ghost use Rattle.std.specs.List.{slice_split};
ghost use Rattle.iscsi_chap.specs.Response.{algorithm_named};
ghost use Rattle.iscsi_access.specs.Exchange.{exchange_value, stands, plain_of, has_item, lists, first_known, known_in, has_chap_key, has_more_than_algorithms};

use iscsi_chap::Algorithm;
use iscsi_text::{Text, Value, read_number};

// Whether a key of CHAP stands in the text.
pub fn has_chap_key(text: &Text<'_>) -> bool
    ensures { result ≡ has_chap_key text.now }
{
    stands(text, b"CHAP_A")
        || stands(text, b"CHAP_C")
        || stands(text, b"CHAP_I")
        || stands(text, b"CHAP_N")
        || stands(text, b"CHAP_R")
}

// Whether other keys of the exchange than CHAP_A stand in the text.
pub fn has_more_than_algorithms(text: &Text<'_>) -> bool
    ensures { result ≡ has_more_than_algorithms text.now }
{
    stands(text, b"AuthMethod")
        || stands(text, b"CHAP_C")
        || stands(text, b"CHAP_I")
        || stands(text, b"CHAP_N")
        || stands(text, b"CHAP_R")
}

// Whether the key stands in the text.
#[tactic(auto, using(crate::proofs::TextLemmas::stands_is))]
pub fn stands(text: &Text<'_>, key: &[u8]) -> bool
    ensures { result ≡ stands key.now text.now }
{
    value_for(text, key).is_some()
}

// The plain value of a key, if it stands in the text.
pub fn plain_of<'a>(text: &Text<'a>, key: &[u8]) -> Option<&'a [u8]>
    ensures { option_map (λ b. b.now) result ≡ plain_of key.now text.now }
{
    match value_for(text, key) {
        Some(Value::Plain(bytes)) => Some(bytes),
        _ => None,
    }
}

// Whether the list of a key has the item.
pub fn lists(text: &Text<'_>, key: &[u8], item: &[u8]) -> bool
    ensures { result ≡ lists item.now (exchange_value key.now text.now) }
{
    match value_for(text, key) {
        Some(Value::Items(bytes) | Value::Plain(bytes)) => has_item(bytes, item),
        _ => false,
    }
}

// The first algorithm that the list of CHAP_A has of those that are known.
pub fn algorithm_in(text: &Text<'_>) -> Option<Algorithm>
    ensures { result ≡ known_in (exchange_value (codes "CHAP_A") text.now) }
{
    match value_for(text, b"CHAP_A") {
        Some(Value::Items(bytes) | Value::Plain(bytes)) => first_known(bytes),
        _ => None,
    }
}

// The first algorithm between commas that is known.
fn first_known(bytes: &[u8]) -> Option<Algorithm>
    ensures { result ≡ first_known bytes.now }
{
    match first_known_item(bytes) {
        Some(item) => Algorithm::named(item),
        None => None,
    }
}

// The first item between commas that names an algorithm which is known.
fn first_known_item(bytes: &[u8]) -> Option<&[u8]>
    ensures { option_map (λ i. i.now) result
        ≡ find (λ i. is_some (algorithm_named i)) (slice_split (λ b. b == 44) bytes.now) }
{
    bytes
        .split(|b| *b == b',')
        .find(|item| Algorithm::named(item).is_some())
}

// The number that bytes spell.
pub fn number_of(bytes: &[u8]) -> Option<u64>
    ensures { result ≡ number_in bytes.now }
{
    read_number(bytes)
}

// The value of a key, if it stands in the text.
fn value_for<'a>(text: &Text<'a>, key: &[u8]) -> Option<Value<'a>>
    ensures { option_map typed result ≡ exchange_value key.now text.now }
{
    text.get(key, 0)
}

// Whether the items between commas have this one.
fn has_item(bytes: &[u8], item: &[u8]) -> bool
    ensures { result ≡ has_item item.now bytes.now }
{
    bytes.split(|b| *b == b',').any(|part| part == item)
}
