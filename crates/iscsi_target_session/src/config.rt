//! What a target is configured with.

ghost use Rattle.std.specs.Prelude.{◌≡◌, ◌≤◌, IfOk, Some, is_some, map};
ghost use Rattle.std.specs.Option.{option_map};
ghost use Rattle.iscsi_login.specs.Negotiation.{ArePreferencesInRange};
ghost use Rattle.iscsi_target_session.specs.Configured.{TargetConfigPost, is_allowed, shortened};

use crate::data_in_limit::DataInLimit;
use crate::initiators::{Name, copies_of, has_name};
use iscsi_access::Chap;
use iscsi_login::{ConfigFault, Preferences, is_name};
use iscsi_portal::Portal;
use scsi_unit::LogicalUnit;
use std::alloc::{AllocError, Global};
use std::marker::Model;

/// What a target is configured with: its name, the tag of its portal group, the TSIH of a session
/// that has logged in, what it prefers in a negotiation, who may log in, where others reach it, what its
/// disk tells of itself, and how long its Data-In are at most.
/// It has no `Debug`, since it may hold secrets.
#[derive(Drop)]
pub struct Config {
    name: Vec<u8>,
    group: u16,
    tsih: u16,
    preferences: Preferences,
    // none: everybody may log in
    names: Option<Vec<Name>>,
    // none: CHAP is not demanded
    chap: Option<Chap>,
    // none: discovery tells no address
    portal: Option<Portal>,
    // none: the disk tells what the profile has
    unit: Option<LogicalUnit>,
    // none: a Data-In is as long as the initiator takes it
    longest_data_in: Option<DataInLimit>,
}

impl Model for Config {
    ghost use Rattle.std.specs.Prelude.{◌≡◌, ◌<◌};
    ghost use Rattle.std.specs.Option.{option_map};
    ghost use Rattle.iscsi_login.specs.Negotiation.{ArePreferencesInRange};
    ghost use Rattle.iscsi_login.specs.Name.{IsName};
    ghost use Rattle.iscsi_target_session.specs.Configured.{TargetSettings};

    ghost Value = { TargetSettings };

    ghost view = { λ c. record {
      name = c.name.items;
      group = c.group;
      tsih = c.tsih;
      preferences = c.preferences;
      extras = record {
        names = option_map (λ v. v.items) c.names;
        chap = c.chap;
        portal = c.portal;
        unit = c.unit;
        longest_data_in = c.longest_data_in;
      };
    } };

    ghost invariant = { λ c. IsName c.name.items × (0 < c.tsih)
        × ArePreferencesInRange c.preferences };
}

impl Config {
    /// A name, the tag of the portal group, a TSIH and preferences (RFC 7143, sections 4.2.7, 13.9
    /// and 11.12.6). The name has 1 to 223 bytes, each of `!` to `~` (which bytes it may have is own
    /// rule). The TSIH is not 0, and the preferences are in range. Everybody may log in, and no portal
    /// is known.
    ///
    /// Another name is `BadName`, a TSIH of 0 or preferences out of range are `OutOfRange`, in this
    /// order; `NoMemory` comes last.
    pub fn new(
        alloc: Global,
        name: &[u8],
        group: u16,
        tsih: u16,
        preferences: Preferences,
    ) -> Result<Config, ConfigFault>
        ensures configures { TargetConfigPost name.now group tsih preferences result }
    {
        if !is_name(name) {
            return Err(ConfigFault::BadName);
        }
        if tsih == 0 || !preferences.in_range() {
            return Err(ConfigFault::OutOfRange);
        }
        let Ok(name) = name.to_vec(alloc) else {
            return Err(ConfigFault::NoMemory);
        };
        Ok(Config {
            name,
            group,
            tsih,
            preferences,
            names: None,
            chap: None,
            portal: None,
            unit: None,
            longest_data_in: None,
        })
    }

    /// The same, which lets in no initiator but those of these names, in discovery sessions too. Names
    /// are compared by bytes. Another one is refused by status 02/02 (RFC 7143, section 11.13.5; that
    /// names are listed is own rule). A name is what an initiator says of itself, and no proof.
    ///
    /// On want of memory the configuration is dropped.
    pub fn with_names(self, alloc: Global, names: &[&[u8]]) -> Result<Config, AllocError>
        ensures names { IfOk result (λ config. config ≡ record self {
          extras = record self.extras { names = Some (map (λ name. name.now) names.now) };
        }) }
    {
        let names = copies_of(alloc, names)?;
        Ok(Config {
            names: Some(names),
            ..self
        })
    }

    /// The same, which lets in nobody who does not answer this challenge by CHAP, in discovery
    /// sessions too. It takes one login only, since the challenge is that login's (RFC 7143, section
    /// 12.1.3; that discovery sessions demand it too is own rule).
    ///
    /// A text without AuthMethod, or one that offers no CHAP, is refused by status 02/01, and so is a
    /// first request in the operational stage. CHAP is chosen wherever it is offered, also behind
    /// `None`.
    pub fn with_chap(self, chap: Chap) -> Config
        ensures chap { result ≡ record self { extras = record self.extras { chap = Some chap } } }
    {
        Config {
            chap: Some(chap),
            ..self
        }
    }

    /// The same, which tells initiators to use this portal: the answer to `SendTargets` has its address
    /// behind the target's name, with the tag of the portal group (RFC 7143, section 13.8 and appendix
    /// C). A discovery session is then answered each key as a normal one, and no key `Irrelevant`, which
    /// some initiators refuse (own rule).
    pub fn with_portal(self, portal: Portal) -> Config
        ensures portal { result ≡ record self {
          extras = record self.extras { portal = Some portal };
        } }
    {
        Config {
            portal: Some(portal),
            ..self
        }
    }

    /// The same, whose disk tells more of itself: its own serial number and name, the limits of a
    /// transfer, and its modes (SPC-4 and SBC-3). Which block a command reads or writes is as before.
    /// Such a target answers a ping and task management beside its tasks, too (RFC 7143, section
    /// 4.2.2.1; that both come together is own rule).
    pub fn with_unit(self, unit: LogicalUnit) -> Config
        ensures unit { result ≡ record self { extras = record self.extras { unit = Some unit } } }
    {
        Config {
            unit: Some(unit),
            ..self
        }
    }

    /// The same, which sends no Data-In of more bytes than this, whatever more the initiator takes in one
    /// segment (RFC 7143, section 13.12; that a target is told so is own rule). It is no key of the login,
    /// and bounds Data-In alone: other answers are as long as the initiator takes them.
    pub fn with_longest_data_in(self, limit: DataInLimit) -> Config
        ensures limit { result ≡ record self {
          extras = record self.extras { longest_data_in = Some limit };
        } }
    {
        Config {
            longest_data_in: Some(limit),
            ..self
        }
    }

    // This length, or less where Data-In are to be shorter; at least a block.
    pub(crate) fn shortened(&self, bytes: u32) -> u32
        requires { 512 ≤ bytes }
        ensures value { result ≡ shortened self.now.extras.longest_data_in bytes }
        ensures some { 512 ≤ result }
        ensures short { result ≤ bytes }
    {
        match &self.longest_data_in {
            Some(limit) => limit.bytes().min(bytes),
            None => bytes,
        }
    }

    // What the disk tells of itself, where it tells more than the profile has.
    pub(crate) fn unit(&self) -> Option<&LogicalUnit>
        ensures { option_map (λ unit. unit.now) result ≡ self.now.extras.unit }
    {
        self.unit.as_ref()
    }

    // What CHAP demands, where it does.
    pub(crate) fn chap(&self) -> Option<&Chap>
        ensures { option_map (λ chap. chap.now) result ≡ self.now.extras.chap }
    {
        self.chap.as_ref()
    }

    // Whether CHAP is demanded.
    pub(crate) fn demands_chap(&self) -> bool
        ensures { result ≡ is_some self.now.extras.chap }
    {
        self.chap.is_some()
    }

    // Whether an initiator of this name may log in.
    pub(crate) fn is_allowed(&self, name: &[u8]) -> bool
        ensures { result ≡ is_allowed self.now.extras name.now }
    {
        match &self.names {
            Some(names) => has_name(names, name),
            None => true,
        }
    }

    // The portal that initiators are to use, where it is told.
    pub(crate) fn portal(&self) -> Option<&Portal>
        ensures { option_map (λ portal. portal.now) result ≡ self.now.extras.portal }
    {
        self.portal.as_ref()
    }

    // Whether initiators are told a portal.
    pub(crate) fn has_portal(&self) -> bool
        ensures { result ≡ is_some self.now.extras.portal }
    {
        self.portal.is_some()
    }

    // The target's name.
    pub(crate) fn name(&self) -> &[u8]
        ensures { result.now ≡ self.now.name }
    {
        &self.name
    }

    // The tag of its portal group.
    pub(crate) fn group(&self) -> u16
        ensures { result ≡ self.now.group }
    {
        self.group
    }

    // The TSIH of its session.
    pub(crate) fn tsih(&self) -> u16
        ensures { result ≡ self.now.tsih }
    {
        self.tsih
    }

    /// What it prefers in a negotiation.
    pub fn preferences(&self) -> &Preferences
        ensures preferences { result.now ≡ self.now.preferences }
        ensures range { ArePreferencesInRange self.now.preferences }
    {
        &self.preferences
    }
}
