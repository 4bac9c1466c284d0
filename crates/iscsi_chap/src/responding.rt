//! Responses, and whether two are one.

ghost use Rattle.std.specs.Prelude.{◌≡◌, ◌↔◌, IsTrue};
ghost use Rattle.iscsi_chap.specs.Response.{due_response, digest_in};

use crate::algorithm::Algorithm;
use md5::{Digest as _, Md5};
use sha2::{Digest as _, Sha256};

/// A response to a challenge: the digest of the algorithm that made it. No secret is in it.
#[derive(Clone, Copy, Debug, PartialEq, Eq)]
pub enum Response {
    /// A digest of MD5.
    Md5([u8; 16]),
    /// A digest of SHA-256.
    Sha256([u8; 32]),
}

impl Response {
    /// The response to a challenge: the digest of the identifier, the secret and the challenge, in
    /// this order (RFC 1994, section 4.1), by this algorithm (RFC 7143, section 12.1.3).
    pub fn to_challenge(
        algorithm: Algorithm,
        identifier: u8,
        secret: &[u8],
        challenge: &[u8],
    ) -> Response
        ensures digest { result ≡ due_response algorithm identifier secret.now challenge.now }
    {
        match algorithm {
            Algorithm::Md5 => {
                let mut hasher = Md5::new();
                hasher.update(&[identifier].as_slice());
                hasher.update(secret);
                hasher.update(challenge);
                Response::Md5(hasher.finalize())
            }
            Algorithm::Sha256 => {
                let mut hasher = Sha256::new();
                hasher.update(&[identifier].as_slice());
                hasher.update(secret);
                hasher.update(challenge);
                Response::Sha256(hasher.finalize())
            }
        }
    }

    /// The bytes of the digest: 16 of MD5, 32 of SHA-256.
    pub fn as_bytes(&self) -> &[u8]
        ensures bytes { result.now ≡ digest_in self.now }
    {
        match self {
            Response::Md5(digest) => digest,
            Response::Sha256(digest) => digest,
        }
    }
}

/// Whether both are the same bytes.
///
/// Where the lengths are the same, each byte of both is looked at, whatever differs. No contract
/// speaks of the time that this takes.
pub fn is_equal(a: &[u8], b: &[u8]) -> bool
    ensures same { IsTrue result ↔ (a.now ≡ b.now) }
{
    if a.len() != b.len() {
        return false;
    }
    let mut difference = 0u8;
    for n in 0..a.len() {
        difference = difference_with(difference, a[n], b[n]);
    }
    difference == 0
}

// The bits in which two bytes differ, beside those before.
fn difference_with(before: u8, a: u8, b: u8) -> u8
    ensures { (result ≡ 0) ↔ ((before ≡ 0) × (a ≡ b)) }
{
    before | (a ^ b)
}
