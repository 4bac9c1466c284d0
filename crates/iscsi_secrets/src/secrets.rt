//! Secrets, and the lines of a text that give them. One file, since it reads one format.

ghost use Rattle.std.specs.Prelude.{◌≡◌, ◌≢◌, ◌||◌, true, false, IfOk, IfErr, OnOk, IsTrue, ◌↔◌, Ok, Err, Some, None, [], map};
ghost use Rattle.std.specs.Char.{is_ascii_control};
ghost use Rattle.std.specs.List.{list_any};
ghost use Rattle.std.specs.Option.{option_map};
ghost use Rattle.iscsi_access.specs.Chap.{has_secret};
ghost use Rattle.iscsi_secrets.specs.declared.fault.SecretsFault.TheVariants as faults;
ghost use Rattle.iscsi_secrets.specs.Secrets.{account_in, demand_of, has_capital, has_name, is_account_name, is_binary_word, is_own_name, is_own_secret, noted_if, secret_of, secrets_in, with_bound, with_four, with_line, with_three, with_user, with_target, with_words, words_of};

use crate::fault::SecretsFault;
use crate::line::{has_number_sign, lines_of, words_of};
use crate::remark::SecretsRemark;
use iscsi_access::{Account, Chap};
use iscsi_chap::read_binary;
use std::alloc::{AllocError, Global};
use std::marker::Model;

/// The most bytes of a text.
pub(crate) const LONGEST_SECRETS: usize = 65_536;

/// The most bytes of a name.
const LONGEST_NAME: usize = 255;

/// The most users.
const MOST_USERS: usize = 64;

const USER: &[u8] = b"user";

const TARGET: &[u8] = b"target";

/// Who may log in, and as whom the target answers, if it does.
///
/// No secret is handed out, and there is no `Debug`.
#[derive(Drop)]
pub struct Secrets {
    accounts: Vec<Account>,
    own: Option<Account>,
    remarks: Vec<SecretsRemark>,
}

impl Model for Secrets {
    ghost use Rattle.iscsi_access.specs.Chap.{AreApart};
    ghost use Rattle.iscsi_secrets.specs.Secrets.{Secrets};

    ghost Value = { Secrets };

    ghost view = { λ s. record {
      accounts = s.accounts.items;
      own = s.own;
      remarks = s.remarks.items;
    } };

    ghost invariant = { λ s. AreApart s.accounts.items s.own };
}

impl Secrets {
    /// The secrets that a text gives, or the fault of its first line that is wrong.
    ///
    /// A line is `user NAME SECRET`, `user NAME SECRET IQN` or `target NAME SECRET`, or has no word.
    /// A user may log in; with the last word it may do so only under this InitiatorName. A target
    /// answers by the name and secret of its line.
    /// - Words are parted by blanks, tabs or carriage returns. A `#` at the head of a word begins a
    ///   comment, and inside a word it is wrong.
    /// - A name has at most 255 bytes, and no control character (RFC 7143, section 6.1).
    /// - A secret has 12 to 255 bytes. It is the bytes of its word; behind `0x` or `0b` those that the
    ///   word writes in hex or in base64, as a large binary value (RFC 7143, section 6.1).
    /// - No name stands twice, and the target's secret is none of a user's.
    /// - There is at most one target, and there are at most 64 users and 65,536 bytes.
    ///
    /// The first line that is wrong is told by its number, from 1. A text that is too long is
    /// `TooLong`, whatever is in it. All of it is own rule, but for the least length of a secret (RFC
    /// 7143, section 9.2.1).
    pub fn read(alloc: Global, text: &[u8]) -> Result<Secrets, SecretsFault>
        ensures ok { IfOk result (λ secrets. secrets_in text.now ≡ Ok secrets) }
        ensures err { IfErr result (λ fault. fault ≢ faults.NoMemory →
            secrets_in text.now ≡ Err fault) }
    {
        if text.len() > LONGEST_SECRETS {
            return Err(SecretsFault::TooLong);
        }
        let lines = lines_of(alloc, text)?;
        let mut secrets = Secrets {
            accounts: Vec::new(alloc),
            own: None,
            remarks: Vec::new(alloc),
        };
        for n in 0..lines.len() {
            secrets.take(alloc, n as u64 + 1, lines[n])?;
        }
        Ok(secrets)
    }

    /// What a target with these secrets demands in one login, by this identifier and challenge,
    /// which are to be fresh. The only error is that memory ran out.
    pub fn demand(
        &self,
        alloc: Global,
        identifier: u8,
        challenge: [u8; 16],
    ) -> Result<Chap, AllocError>
        ensures demand { IfOk result (λ chap. chap ≡ demand_of self.now identifier challenge) }
    {
        let accounts = copies_of(alloc, &self.accounts)?;
        let own = match &self.own {
            Some(own) => Some(own.copy(alloc)?),
            None => None,
        };
        let Ok(chap) = Chap::new(accounts, own, identifier, challenge) else {
            // The target's secret is none of a user's.
            unreachable!()
        };
        Ok(chap)
    }

    /// Whether somebody may log in.
    pub fn has_users(&self) -> bool
        ensures some { IsTrue result ↔ (self.now.accounts ≢ []) }
    {
        !self.accounts.is_empty()
    }

    /// What is told of the lines, in their order.
    pub fn remarks(&self) -> &[SecretsRemark]
        ensures told { result.now ≡ self.now.remarks }
    {
        &self.remarks
    }

    // Takes the line of this number.
    fn take(&mut self, alloc: Global, line: u64, text: &[u8]) -> Result<(), SecretsFault>
        ensures ok { OnOk result (with_line line self.old (words_of text.now) ≡ Ok self.new) }
        ensures err { IfErr result (λ fault. fault ≢ faults.NoMemory →
            with_line line self.old (words_of text.now) ≡ Err fault) }
    {
        let words = words_of(alloc, text)?;
        self.take_line(alloc, line, &words)
    }

    // Takes the words of the line of this number, unless one has a `#`.
    fn take_line(&mut self, alloc: Global, line: u64, words: &[&[u8]]) -> Result<(), SecretsFault>
        ensures ok { OnOk result (with_line line self.old (map (λ word. word.now) words.now)
            ≡ Ok self.new) }
        ensures err { IfErr result (λ fault. fault ≢ faults.NoMemory →
            with_line line self.old (map (λ word. word.now) words.now) ≡ Err fault) }
    {
        if has_number_sign(words) {
            return Err(SecretsFault::NumberSign(line));
        }
        self.take_words(alloc, line, words)
    }

    // Takes the words of the line of this number, none of which has a `#`.
    fn take_words(&mut self, alloc: Global, line: u64, words: &[&[u8]]) -> Result<(), SecretsFault>
        ensures ok { OnOk result (with_words line self.old (map (λ word. word.now) words.now)
            ≡ Ok self.new) }
        ensures err { IfErr result (λ fault. fault ≢ faults.NoMemory →
            with_words line self.old (map (λ word. word.now) words.now) ≡ Err fault) }
    {
        match words {
            [] => Ok(()),
            [kind, name, secret] => self.take_three(alloc, line, kind, name, secret),
            [kind, name, secret, initiator] => {
                self.take_four(alloc, line, kind, name, secret, initiator)
            }
            _ => Err(SecretsFault::BadLine(line)),
        }
    }

    // Takes a line of three words.
    #[tactic(auto, unfolding(crate::specs::Secrets::with_three))]
    fn take_three(
        &mut self,
        alloc: Global,
        line: u64,
        kind: &[u8],
        name: &[u8],
        secret: &[u8],
    ) -> Result<(), SecretsFault>
        ensures ok { OnOk result (with_three line self.old kind.now
            (account_in line name.now secret.now) ≡ Ok self.new) }
        ensures err { IfErr result (λ fault. fault ≢ faults.NoMemory → with_three line self.old
            kind.now (account_in line name.now secret.now) ≡ Err fault) }
    {
        if kind == USER {
            let account = account_of(alloc, line, name, secret)?;
            return self.take_user(line, account);
        }
        if kind == TARGET {
            let account = account_of(alloc, line, name, secret)?;
            return self.take_target(line, account);
        }
        Err(SecretsFault::BadLine(line))
    }

    // Takes a line of four words.
    #[tactic(auto, unfolding(crate::specs::Secrets::with_four))]
    fn take_four(
        &mut self,
        alloc: Global,
        line: u64,
        kind: &[u8],
        name: &[u8],
        secret: &[u8],
        initiator: &[u8],
    ) -> Result<(), SecretsFault>
        ensures ok { OnOk result (with_four line self.old kind.now
            (account_in line name.now secret.now) initiator.now ≡ Ok self.new) }
        ensures err { IfErr result (λ fault. fault ≢ faults.NoMemory → with_four line self.old
            kind.now (account_in line name.now secret.now) initiator.now ≡ Err fault) }
    {
        if kind != USER {
            return Err(SecretsFault::BadLine(line));
        }
        let account = account_of(alloc, line, name, secret)?;
        self.take_bound(alloc, line, account, initiator)
    }

    // Takes a user who is bound to this InitiatorName.
    fn take_bound(
        &mut self,
        alloc: Global,
        line: u64,
        account: Account,
        initiator: &[u8],
    ) -> Result<(), SecretsFault>
        ensures ok { OnOk result (with_bound line self.old account initiator.now ≡ Ok self.new) }
        ensures err { IfErr result (λ fault. fault ≢ faults.NoMemory →
            with_bound line self.old account initiator.now ≡ Err fault) }
    {
        let account = account.bound_to(initiator.to_vec(alloc)?);
        self.note_if(has_capital(initiator), SecretsRemark::Capital(line))?;
        self.take_user(line, account)
    }

    // Takes a user.
    #[tactic(auto, using(crate::proofs::ApartLemmas::apart_longer), unfolding(crate::specs::Secrets::with_user))]
    fn take_user(&mut self, line: u64, account: Account) -> Result<(), SecretsFault>
        ensures ok { OnOk result (with_user line self.old account ≡ Ok self.new) }
        ensures err { IfErr result (λ fault. fault ≢ faults.NoMemory →
            with_user line self.old account ≡ Err fault) }
    {
        if is_known(&self.accounts, &self.own, &account) {
            return Err(SecretsFault::SameName(line));
        }
        if is_own_secret(&self.own, &account) {
            return Err(SecretsFault::SameSecret(line));
        }
        if self.accounts.len() >= MOST_USERS {
            return Err(SecretsFault::TooManyUsers(line));
        }
        let is_shared = shares_secret(&self.accounts, &account);
        self.accounts.push(account)?;
        self.note_if(is_shared, SecretsRemark::SharedSecret(line))?;
        Ok(())
    }

    // Adds a remark where it is to be told.
    fn note_if(&mut self, told: bool, remark: SecretsRemark) -> Result<(), AllocError>
        ensures { OnOk result (self.new ≡ noted_if told remark self.old) }
    {
        if told {
            self.remarks.push(remark)?;
        }
        Ok(())
    }

    // Takes the target.
    fn take_target(&mut self, line: u64, account: Account) -> Result<(), SecretsFault>
        ensures ok { OnOk result (with_target line self.old account ≡ Ok self.new) }
        ensures err { IfErr result (λ fault. with_target line self.old account ≡ Err fault) }
    {
        if self.own.is_some() {
            return Err(SecretsFault::SecondTarget(line));
        }
        if is_known(&self.accounts, &self.own, &account) {
            return Err(SecretsFault::SameName(line));
        }
        if shares_secret(&self.accounts, &account) {
            return Err(SecretsFault::SameSecret(line));
        }
        self.own = Some(account);
        Ok(())
    }
}

// The account of a name and of the word of a secret, which any initiator may use. The name's fault
// comes first.
#[tactic(auto, unfolding(crate::specs::Secrets::account_in))]
fn account_of(alloc: Global, line: u64, name: &[u8], word: &[u8]) -> Result<Account, SecretsFault>
    ensures ok { IfOk result (λ account. account_in line name.now word.now ≡ Ok account) }
    ensures err { IfErr result (λ fault. fault ≢ faults.NoMemory →
        account_in line name.now word.now ≡ Err fault) }
{
    if !is_name(name) {
        return Err(SecretsFault::BadName(line));
    }
    let name = name.to_vec(alloc)?;
    let Some(secret) = secret_of(alloc, word)? else {
        return Err(SecretsFault::BadBinary(line));
    };
    match Account::new(name, secret) {
        Ok(account) => Ok(account),
        Err(_) => Err(SecretsFault::BadSecret(line)),
    }
}

// The secret that a word gives, if it gives one.
fn secret_of(alloc: Global, word: &[u8]) -> Result<Option<Vec<u8>>, AllocError>
    ensures { IfOk result (λ secret. option_map (λ v. v.items) secret ≡ secret_of word.now) }
{
    if is_binary_word(word) {
        return read_binary(alloc, word);
    }
    Ok(Some(word.to_vec(alloc)?))
}

// Whether a word begins as a large binary value.
fn is_binary_word(word: &[u8]) -> bool
    ensures { result ≡ is_binary_word word.now }
{
    match word {
        [b'0', b'x' | b'X' | b'b' | b'B', ..] => true,
        _ => false,
    }
}

// Whether a name has a capital letter.
fn has_capital(name: &[u8]) -> bool
    ensures { result ≡ has_capital name.now }
{
    for b in name {
        if b.is_ascii_uppercase() {
            return true;
        }
    }
    false
}

// Whether a name is none too long, and has no control character.
fn is_name(name: &[u8]) -> bool
    ensures { result ≡ is_account_name name.now }
{
    name.len() <= LONGEST_NAME && !has_control(name)
}

// Whether one of the bytes is a control character.
fn has_control(name: &[u8]) -> bool
    ensures { result ≡ list_any is_ascii_control name.now }
{
    for b in name {
        if b.is_ascii_control() {
            return true;
        }
    }
    false
}

// Whether an earlier line has the account's name.
fn is_known(accounts: &[Account], own: &Option<Account>, account: &Account) -> bool
    ensures { result ≡ (has_name accounts.now account.now.name
        || is_own_name own.now account.now.name) }
{
    shares_name(accounts, account)
        || match own {
            Some(own) => own.shares_name(account),
            None => false,
        }
}

// Whether the target has the account's secret.
fn is_own_secret(own: &Option<Account>, account: &Account) -> bool
    ensures { result ≡ is_own_secret own.now account.now.secret }
{
    match own {
        Some(own) => account.shares_secret(own),
        None => false,
    }
}

// Whether one of the accounts has the name of another.
fn shares_name(accounts: &[Account], other: &Account) -> bool
    ensures { result ≡ has_name accounts.now other.now.name }
{
    for account in accounts {
        if account.shares_name(other) {
            return true;
        }
    }
    false
}

// Whether one of the accounts has the secret of another.
fn shares_secret(accounts: &[Account], other: &Account) -> bool
    ensures { result ≡ has_secret accounts.now other.now.secret }
{
    for account in accounts {
        if account.shares_secret(other) {
            return true;
        }
    }
    false
}

// The same accounts once more.
fn copies_of(alloc: Global, accounts: &[Account]) -> Result<Vec<Account>, AllocError>
    ensures { IfOk result (λ copies. copies.items ≡ accounts.now) }
{
    let mut copies = Vec::new(alloc);
    for account in accounts {
        copies.push(account.copy(alloc)?)?;
    }
    Ok(copies)
}
