//! Who may log in at a service.

ghost use Rattle.std.specs.Prelude.{◌≡◌, ◌&&◌, IfErr, IfOk, None, Some, is_none, map};
ghost use Rattle.std.specs.Option.{option_map};
ghost use Rattle.iscsi_serving.specs.Access.{DemandsSecret, settings_with_names};
ghost use Rattle.iscsi_serving.specs.declared.access.AccessFault.TheVariants.{NoMemory};

use iscsi_secrets::Secrets;
use iscsi_target::Config;
use std::alloc::{AllocError, Global};
use std::random::RandomSource;

/// How many random bytes a login takes: an identifier, and a challenge of 16 (RFC 7143, section 12.1.3).
const DRAWN: usize = 17;

/// Who may log in, and what a login has to show.
#[derive(Clone, Copy)]
pub struct Access<'a> {
    /// The names of the initiators that may log in; none: everybody may.
    pub initiators: Option<&'a [&'a [u8]]>,
    /// The secrets of which a login has to show one (CHAP); none: a login has to show nothing.
    pub secrets: Option<&'a Secrets>,
}

/// Everybody may log in.
pub const EVERYBODY: Access<'static> = Access {
    initiators: None,
    secrets: None,
};

/// Why a connection gets no target.
#[derive(Clone, Copy, Debug, PartialEq, Eq)]
pub enum AccessFault {
    /// Memory ran out.
    NoMemory,
    /// The system gives no random bytes.
    NoRandom,
}

impl Access<'_> {
    /// Whether everybody may log in.
    pub fn is_open(&self) -> bool
        ensures { result ≡ (is_none self.now.initiators && is_none self.now.secrets) }
    {
        self.initiators.is_none() && self.secrets.is_none()
    }

    /// The configuration of one connection, which lets in those who may log in. Where there are
    /// secrets, its login has to answer a challenge of its own (RFC 1994): the system draws the 16 bytes
    /// and the identifier.
    ///
    /// `NoRandom` comes if it gives none, `NoMemory` if memory runs out. The configuration is dropped then.
    pub fn demand<R: RandomSource>(
        &self,
        alloc: Global,
        random: &R,
        config: Config,
    ) -> Result<Config, AccessFault>
        ensures demands { IfOk result (DemandsSecret (option_map (λ secrets. secrets.now) self.now.secrets)
            (settings_with_names (option_map (λ names. map (λ name. name.now) names.now)
            self.now.initiators) config)) }
        ensures drawn { IfErr result (λ fault. self.now.secrets ≡ None → fault ≡ NoMemory) }
    {
        let config = self.named(alloc, config)?;
        match self.secrets {
            Some(secrets) => challenged(alloc, random, secrets, config),
            None => Ok(config),
        }
    }

    // The configuration with the names that are listed, if some are.
    fn named(&self, alloc: Global, config: Config) -> Result<Config, AllocError>
        ensures { IfOk result (λ made. made ≡ settings_with_names (option_map (λ names. map (λ name. name.now) names.now)
            self.now.initiators) config) }
    {
        match self.initiators {
            Some(names) => config.with_names(alloc, names),
            None => Ok(config),
        }
    }
}

// The configuration that demands one of the secrets, with bytes of the system for the challenge.
fn challenged<R: RandomSource>(
    alloc: Global,
    random: &R,
    secrets: &Secrets,
    config: Config,
) -> Result<Config, AccessFault>
    ensures { IfOk result (DemandsSecret (Some secrets.now) config) }
{
    let mut drawn = [0; DRAWN];
    if random.fill_bytes(&mut drawn).is_err() {
        return Err(AccessFault::NoRandom);
    }
    let mut challenge = [0; 16];
    challenge.copy_from_slice(&drawn[1..]);
    let chap = secrets.demand(alloc, drawn[0], challenge)?;
    Ok(config.with_chap(chap))
}

impl From<AllocError> for AccessFault {
    ghost use Rattle.std.specs.Prelude.{◌≡◌};
    ghost use Rattle.iscsi_serving.specs.declared.access.AccessFault.TheVariants as access;

    ghost from_gives = { λ _ fault. fault ≡ access.NoMemory };

    fn from(_error: AllocError) -> AccessFault {
        AccessFault::NoMemory
    }
}
