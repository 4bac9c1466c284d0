//! What another program does with `iscsi_secrets`.

ghost use Rattle.std.specs.Prelude.{◌≡◌, ◌≢◌, IfOk, IfErr, Ok, Err};
ghost use Rattle.iscsi_secrets.specs.declared.fault.SecretsFault.TheVariants as faults;
ghost use Rattle.iscsi_secrets.specs.Secrets.{Secrets, demand_of, secrets_in};

use iscsi_access::Chap;
use iscsi_secrets::{Secrets, SecretsFault};
use std::alloc::Global;

/// What a target demands in one login, by the text of its secrets.
pub fn demand_of(
    alloc: Global,
    text: &[u8],
    identifier: u8,
    challenge: [u8; 16],
) -> Result<Chap, SecretsFault>
    ensures demand { IfOk result (λ chap. (s : Secrets) × (secrets_in text.now ≡ Ok s)
        × (chap ≡ demand_of s identifier challenge)) }
    ensures fault { IfErr result (λ fault. fault ≢ faults.NoMemory →
        secrets_in text.now ≡ Err fault) }
{
    let secrets = Secrets::read(alloc, text)?;
    Ok(secrets.demand(alloc, identifier, challenge)?)
}
