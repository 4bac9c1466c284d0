//! Texts of keys and values, as iSCSI's login and text requests carry them (RFC 7143, section 6.1).
#![tactic(auto)]

mod fault;
mod key;
pub mod laws;
mod negotiated;
mod numeral;
mod pair;
mod text;
mod value;

pub use fault::TextFault;
pub use key::{KNOWN_KEYS, KeyKind, key_kind, known_key};
pub use negotiated::{Answered, BYTES, NEGOTIATED_KEYS, NegKey, Range, Rule, SECONDS, Session};
pub use numeral::{read_number, write_number};
pub use pair::Pair;
pub use text::{Text, read_text, sort_pairs, split_at_byte, value_in, write_pairs};
pub use value::Value;
