//! What the target says, as the pairs of its answer (RFC 7143, section 12.1.3).

ghost use Rattle.std.specs.Prelude.{◌≡◌, IfOk};
ghost use Rattle.iscsi_text.specs.Value.{Plain};
ghost use Rattle.iscsi_text.specs.Numeral.{canonical_number};
ghost use Rattle.iscsi_text.specs.Shown.{all_shown, shown};
ghost use Rattle.iscsi_chap.specs.Binary.{binary_text};
ghost use Rattle.iscsi_access.specs.Exchange.{said_pairs};

use crate::chap::Chap;
use crate::verdict::Said;
use iscsi_chap::write_binary;
use iscsi_text::{Pair, Value, write_number};
use std::alloc::{AllocError, Global};
use std::marker::Model;

/// The pairs by which the target says something, with the bytes of their values.
#[derive(Drop)]
pub struct Spoken<'a> {
    words: Words<'a>,
}

/// The values of the pairs.
#[derive(Drop)]
pub(crate) enum Words<'a> {
    /// There is no pair.
    Nothing,
    /// That CHAP is chosen.
    Method,
    /// The number of the algorithm; the identifier and the challenge, written.
    Challenge(&'a [u8], Vec<u8>, Vec<u8>),
    /// The target's own name, and its response, written.
    Response(&'a [u8], Vec<u8>),
}

impl<'a> Model for Spoken<'a> {
    ghost use Rattle.iscsi_text.specs.Text.{Pairs};
    ghost use Rattle.iscsi_access.specs.Inside.{word_pairs};

    ghost Value = { Pairs };

    ghost view = { λ s. word_pairs s.words };
}

impl Chap {
    /// The pairs by which the target says this of the exchange (RFC 7143, section 12.1.3). A binary
    /// value is written in hex. The only error is that memory ran out.
    pub fn speak(&self, alloc: Global, said: Said) -> Result<Spoken<'_>, AllocError>
        ensures pairs { IfOk result (λ spoken. spoken ≡ said_pairs self.now said) }
    {
        let words = match (said, &self.own) {
            (Said::Nothing, _) => Words::Nothing,
            (Said::Method, _) => Words::Method,
            (Said::Challenge(algorithm), _) => {
                Words::Challenge(
                    algorithm.name(),
                    number(alloc, self.identifier)?,
                    binary(alloc, &self.challenge)?,
                )
            }
            (Said::Response(response), Some(own)) => {
                Words::Response(&own.name, binary(alloc, response.as_bytes())?)
            }
            (Said::Response(_), None) => Words::Nothing,
        };
        Ok(Spoken { words })
    }
}

impl Spoken<'_> {
    /// The pairs, in the byte order of their keys. The only error is that memory ran out.
    pub fn pairs(&self, alloc: Global) -> Result<Vec<Pair<'_>>, AllocError>
        ensures pairs { IfOk result (λ pairs. all_shown pairs.items ≡ self.now) }
    {
        let mut pairs = Vec::new(alloc);
        match &self.words {
            Words::Nothing => {}
            Words::Method => pairs.push(Pair {
                key: b"AuthMethod",
                value: Value::Items(b"CHAP"),
            })?,
            Words::Challenge(algorithm, identifier, challenge) => {
                pairs.push(plain(b"CHAP_A", algorithm))?;
                pairs.push(plain(b"CHAP_C", challenge))?;
                pairs.push(plain(b"CHAP_I", identifier))?;
            }
            Words::Response(name, response) => {
                pairs.push(plain(b"CHAP_N", name))?;
                pairs.push(plain(b"CHAP_R", response))?;
            }
        }
        Ok(pairs)
    }
}

// A pair of a plain value.
fn plain<'a>(key: &'a [u8], bytes: &'a [u8]) -> Pair<'a>
    ensures { shown result ≡ (key.now, Plain bytes.now) }
{
    Pair {
        key,
        value: Value::Plain(bytes),
    }
}

// A number as it is written.
fn number(alloc: Global, n: u8) -> Result<Vec<u8>, AllocError>
    ensures { IfOk result (λ text. text.items ≡ canonical_number n) }
{
    let mut text = Vec::new(alloc);
    write_number(u64::from(n), &mut text)?;
    Ok(text)
}

// Bytes as a large binary value.
fn binary(alloc: Global, bytes: &[u8]) -> Result<Vec<u8>, AllocError>
    ensures { IfOk result (λ text. text.items ≡ binary_text bytes.now) }
{
    let mut text = Vec::new(alloc);
    write_binary(bytes, &mut text)?;
    Ok(text)
}
