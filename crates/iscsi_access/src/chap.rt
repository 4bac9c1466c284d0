//! What a target demands of an initiator.

ghost use Rattle.std.specs.Prelude.{◌≡◌, ◌↔◌, IsTrue, IfOk, Some};
ghost use Rattle.std.specs.Str.{bytes_eq};
ghost use Rattle.iscsi_access.specs.Chap.{AreApart, NewChapPost, NewAccountPost, allows, has_secret};

use std::alloc::{AllocError, Global};
use std::marker::Model;

/// The fewest bytes of a secret: 96 bits (RFC 7143, section 9.2.1).
const FEWEST: usize = 12;

/// The most bytes of a secret (own rule).
const MOST: usize = 255;

/// A name with its secret. It may be bound to one InitiatorName, under which alone it counts.
///
/// The secret is never handed out, and there is no `Debug`.
#[derive(Drop)]
pub struct Account {
    pub(crate) name: Vec<u8>,
    pub(crate) secret: Vec<u8>,
    // none: any initiator may use it
    pub(crate) initiator: Option<Vec<u8>>,
}

impl Model for Account {
    ghost use Rattle.std.specs.Option.{option_map};
    ghost use Rattle.iscsi_access.specs.Chap.{Account};

    ghost Value = { Account };

    ghost view = { λ a. record {
      name = a.name.items;
      secret = a.secret.items;
      initiator = option_map (λ v. v.items) a.initiator;
    } };
}

/// Why an account or a demand is none. No secret is in it.
#[derive(Clone, Copy, Debug, PartialEq, Eq)]
pub enum ChapFault {
    /// The secret has fewer than 12 bytes, or more than 255.
    BadSecret,
    /// The target's own secret is that of an initiator.
    SameSecret,
}

impl Account {
    /// A name with its secret, which any initiator may use.
    ///
    /// A secret of fewer than 12 bytes or of more than 255 is `BadSecret` (RFC 7143, section 9.2.1;
    /// that there are no more than 255 bytes is own rule).
    pub fn new(name: Vec<u8>, secret: Vec<u8>) -> Result<Account, ChapFault>
        ensures makes { NewAccountPost name.items secret.items result }
    {
        if secret.len() < FEWEST || secret.len() > MOST {
            return Err(ChapFault::BadSecret);
        }
        Ok(Account {
            name,
            secret,
            initiator: None,
        })
    }

    /// The same, which an initiator of this InitiatorName alone may use (own rule). Names are
    /// compared by bytes.
    pub fn bound_to(self, initiator: Vec<u8>) -> Account
        ensures bound { result ≡ record self { initiator = Some initiator.items } }
    {
        Account {
            initiator: Some(initiator),
            ..self
        }
    }

    /// The same once more. The only error is that memory ran out.
    pub fn copy(&self, alloc: Global) -> Result<Account, AllocError>
        ensures same { IfOk result (λ account. account ≡ self.now) }
    {
        let name = self.name.to_vec(alloc)?;
        let secret = self.secret.to_vec(alloc)?;
        let initiator = match &self.initiator {
            Some(initiator) => Some(initiator.to_vec(alloc)?),
            None => None,
        };
        Ok(Account {
            name,
            secret,
            initiator,
        })
    }

    /// Whether both accounts have one name.
    pub fn shares_name(&self, other: &Account) -> bool
        ensures name { result ≡ bytes_eq self.now.name other.now.name }
    {
        self.name.as_slice() == other.name.as_slice()
    }

    /// Whether both accounts have one secret.
    pub fn shares_secret(&self, other: &Account) -> bool
        ensures secret { result ≡ bytes_eq self.now.secret other.now.secret }
    {
        self.secret.as_slice() == other.secret.as_slice()
    }

    // Whether an initiator of this name may use the account.
    pub(crate) fn allows(&self, initiator: &[u8]) -> bool
        ensures { result ≡ allows self.now.initiator initiator.now }
    {
        match &self.initiator {
            Some(name) => name.as_slice() == initiator,
            None => true,
        }
    }
}

/// What a target demands in one login: that the initiator answers this challenge with the secret of
/// one of these accounts.
///
/// The target may have an account of its own, by which it answers a challenge of the initiator.
/// Whether that one is bound to an InitiatorName is not looked at. The challenge and the identifier
/// are to be fresh and unpredictable for each login; no contract can say that they are. There is no
/// `Debug`.
#[derive(Drop)]
pub struct Chap {
    pub(crate) accounts: Vec<Account>,
    pub(crate) own: Option<Account>,
    pub(crate) identifier: u8,
    pub(crate) challenge: [u8; 16],
}

impl Model for Chap {
    ghost use Rattle.iscsi_access.specs.Chap.{Chap, AreApart};

    ghost Value = { Chap };

    ghost view = { λ c. record {
      accounts = c.accounts.items;
      own = c.own;
      identifier = c.identifier;
      challenge = c.challenge;
    } };

    ghost invariant = { λ c. AreApart c.accounts.items c.own };
}

impl Chap {
    /// What is demanded in one login.
    ///
    /// `SameSecret` is that the target's own secret is that of an account (RFC 7143, section 9.2.1).
    /// A response of the target could be given back to it then. Of two accounts with one name the
    /// first counts.
    pub fn new(
        accounts: Vec<Account>,
        own: Option<Account>,
        identifier: u8,
        challenge: [u8; 16],
    ) -> Result<Chap, ChapFault>
        ensures demands { NewChapPost accounts.items own identifier challenge result }
    {
        if !are_apart(&accounts, &own) {
            return Err(ChapFault::SameSecret);
        }
        Ok(Chap {
            accounts,
            own,
            identifier,
            challenge,
        })
    }
}

// Whether the target's own secret is none of the accounts'.
fn are_apart(accounts: &[Account], own: &Option<Account>) -> bool
    ensures { IsTrue result ↔ AreApart accounts.now own.now }
{
    match own {
        Some(own) => !has_secret(accounts, own),
        None => true,
    }
}

// Whether one of the accounts has the secret of another.
fn has_secret(accounts: &[Account], other: &Account) -> bool
    ensures { result ≡ has_secret accounts.now other.now.secret }
{
    for account in accounts {
        if account.shares_secret(other) {
            return true;
        }
    }
    false
}
