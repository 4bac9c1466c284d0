//! What another program does with `iscsi_chap`.

ghost use Rattle.std.specs.Prelude.{◌≡◌, ◌↔◌, IfOk, IsTrue, Some};
ghost use Rattle.iscsi_chap.specs.Binary.{binary_of};
ghost use Rattle.iscsi_chap.specs.Response.{chap_response};

use iscsi_chap::{Algorithm, Response, is_equal, read_binary};
use std::alloc::{AllocError, Global};

/// Whether a value writes the response that a secret gives to a challenge by an algorithm.
pub fn proves(
    alloc: Global,
    algorithm: Algorithm,
    identifier: u8,
    secret: &[u8],
    challenge: &[u8],
    value: &[u8],
) -> Result<bool, AllocError>
    ensures response { IfOk result (λ proves. IsTrue proves ↔ (binary_of value.now
        ≡ Some (chap_response algorithm identifier secret.now challenge.now))) }
{
    match read_binary(alloc, value)? {
        Some(given) => {
            let due = Response::to_challenge(algorithm, identifier, secret, challenge);
            Ok(is_equal(&given, due.as_bytes()))
        }
        None => Ok(false),
    }
}
