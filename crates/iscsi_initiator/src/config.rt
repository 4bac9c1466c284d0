//! Configurations of an initiator.

ghost use Rattle.std.specs.Prelude.{◌≡◌, ◌≤◌, ◌++◌, None, OnOk, OnErr};
ghost use Rattle.iscsi_login.specs.Negotiation.{ArePreferencesInRange};
ghost use Rattle.iscsi_login.specs.Answer.{DeclaresWell};
ghost use Rattle.iscsi_text.specs.Reading.{in_order};
ghost use Rattle.iscsi_login.specs.Check.{bad_key};
ghost use Rattle.iscsi_login.specs.Offers.{proposed, text_of, offers_at};
ghost use Rattle.iscsi_initiator.specs.Configured.{InitiatorConfigPost};

use crate::fault::Key;
use iscsi_login::{Auth, ConfigFault, Offers, Preferences, Session, Stage, is_name};
use iscsi_pdu::LOGIN_SEGMENT;
use iscsi_text::Text;
use std::alloc::{AllocError, Global};
use std::marker::Model;

/// What an initiator offers, and how it logs in. Names, numbers and stage are valid.
#[derive(Drop)]
pub struct Config {
    initiator: Vec<u8>,
    target: Vec<u8>,
    session: Session,
    auth: Auth,
    prefs: Preferences,
    start: Stage,
    isid: [u8; 6],
    first_cmd_sn: u32,
    login_segment: u32,
}

impl Model for Config {
    ghost use Rattle.iscsi_initiator.specs.State.{InitiatorSettings};
    ghost use Rattle.iscsi_initiator.specs.Configured.{AreValid};

    ghost Value = { InitiatorSettings };

    ghost view = { λ c. record {
      proposal = record {
        initiator = c.initiator.items;
        target = c.target.items;
        session = c.session;
        auth = c.auth;
        prefs = c.prefs;
      };
      start = c.start;
      isid = c.isid;
      first_cmd_sn = c.first_cmd_sn;
      login_segment = c.login_segment;
    } };

    ghost invariant = { λ c. AreValid (record {
      proposal = record {
        initiator = c.initiator.items;
        target = c.target.items;
        session = c.session;
        auth = c.auth;
        prefs = c.prefs;
      };
      start = c.start;
      isid = c.isid;
      first_cmd_sn = c.first_cmd_sn;
      login_segment = c.login_segment;
    }) };
}

impl Config {
    /// A configuration: what is offered, the stage where the login starts (`Security` or
    /// `Operational`), the ISID and the first CmdSN (RFC 7143, sections 6.3 and 11.12). One segment
    /// of a login text has at most `login_segment` bytes, which is 64 to 8192 (own rule).
    ///
    /// A bad name is refused first, then a number or stage out of its range; `NoMemory` comes
    /// last.
    pub fn new(
        alloc: Global,
        offers: Offers<'_>,
        start: Stage,
        isid: [u8; 6],
        first_cmd_sn: u32,
        login_segment: u32,
    ) -> Result<Config, ConfigFault>
        ensures configures { InitiatorConfigPost (record {
          proposal = proposed offers.entry;
          start = start;
          isid = isid;
          first_cmd_sn = first_cmd_sn;
          login_segment = login_segment;
        }) result }
    {
        if !is_name(offers.initiator) || !is_name(offers.target) {
            return Err(ConfigFault::BadName);
        }
        if !offers.prefs.in_range()
            || start == Stage::Full
            || login_segment < 64
            || login_segment > LOGIN_SEGMENT
        {
            return Err(ConfigFault::OutOfRange);
        }
        let Ok(initiator) = offers.initiator.to_vec(alloc) else {
            return Err(ConfigFault::NoMemory);
        };
        let Ok(target) = offers.target.to_vec(alloc) else {
            return Err(ConfigFault::NoMemory);
        };
        Ok(Config {
            initiator,
            target,
            session: offers.session,
            auth: offers.auth,
            prefs: offers.prefs,
            start,
            isid,
            first_cmd_sn,
            login_segment,
        })
    }

    // What the initiator wants of each key.
    pub(crate) fn preferences(&self) -> &Preferences
        ensures preferences { result.now ≡ self.now.proposal.prefs }
        ensures range { ArePreferencesInRange self.now.proposal.prefs }
    {
        &self.prefs
    }

    // The stage that the login begins in.
    pub(crate) fn start(&self) -> Stage
        ensures { result ≡ self.now.start }
    {
        self.start
    }

    // The initiator's part of the session's number.
    pub(crate) fn isid(&self) -> [u8; 6]
        ensures { result ≡ self.now.isid }
    {
        self.isid
    }

    // The CmdSN of the login.
    pub(crate) fn first_cmd_sn(&self) -> u32
        ensures { result ≡ self.now.first_cmd_sn }
    {
        self.first_cmd_sn
    }

    // The most bytes of a login text that go in one PDU.
    pub(crate) fn login_segment(&self) -> u32
        ensures most { result ≡ self.now.login_segment }
        ensures range { (64 ≤ result) × (result ≤ 8192) }
    {
        self.login_segment
    }

    // What the initiator offers at each stage of the login.
    pub(crate) fn offers(&self) -> Offers<'_>
        ensures { proposed result ≡ self.now.proposal }
    {
        Offers {
            initiator: &self.initiator,
            target: &self.target,
            session: self.session,
            auth: self.auth,
            prefs: self.prefs,
        }
    }

    // Appends the text of this stage. When out of memory, `out` is unchanged.
    pub(crate) fn write_text(&self, stage: Stage, out: &mut Vec<u8>) -> Result<(), AllocError>
        ensures ok { OnOk result (out.new.items ≡ out.old.items
            ++ text_of (offers_at self.now.proposal self.now.start stage)) }
        ensures err { OnErr result (out.new.items ≡ out.old.items) }
    {
        self.offers().write_text(self.start, stage, out)
    }

    // The key for which the answer to the text of this stage is refused.
    pub(crate) fn bad_key(&self, stage: Stage, answer: &Text<'_>) -> Option<Key>
        ensures key { result
            ≡ bad_key (in_order (offers_at self.now.proposal self.now.start stage)) answer.now }
        ensures declares { result ≡ None → DeclaresWell answer.now }
    {
        self.offers()
            .bad_key(self.start, stage, answer)
            .map(Key::new)
    }
}
