//! A session between two PDUs: its login, its numbers, what is held, and its answers to requests that
//! are no commands.

ghost use Rattle.std.specs.Prelude.{◌≡◌, ◌<◌, ◌≤◌, ◌^◌, length, is_some};
ghost use Rattle.std.specs.Option.{option_map};
ghost use Rattle.iscsi_pdu.specs.Meaning.{HeadFits};
ghost use Rattle.iscsi_login.specs.Stage.{is_closed_phase};
ghost use Rattle.iscsi_target_session.specs.Session.{opening_session, data_in_length, max_cmd_sn_with, send_response, stat_sn_advanced, ended_session};
ghost use Rattle.iscsi_target_session.specs.Rejecting.{message_rejected, reject_and_close};
ghost use Rattle.iscsi_target_session.specs.Replies.{ReplyPost};

mod exchange;
mod login;
mod login_text;
mod requests;
mod text_request;

use crate::config::Config;
use crate::numbers::Numbers;
use crate::received::Received;
use iscsi_access::Progress;
use iscsi_login::{Params, Phase, Session as SessionType, Stage};
use iscsi_pdu::rule::PROTOCOL_ERROR;
use iscsi_pdu::{Head, Reject};
use iscsi_stream::{canonical_head, write_pdu};
use iscsi_text::KNOWN_KEYS;
use scsi_unit::LogicalUnit;
use std::alloc::{AllocError, Global};
use std::marker::Model;

/// How many commands that aren't immediate may wait (RFC 7143, section 4.2.2.1; own rule).
const WINDOW: u32 = 8;

/// A session between two PDUs. It knows no disk and no command. Each call is given how many tasks
/// wait, on which the window depends. Where a call runs out of memory it has written nothing, and
/// the session can then only be closed.
#[derive(Drop)]
pub struct Session {
    config: Config,
    phase: Phase,
    stage: Stage,
    begun: bool,
    gathered: Vec<u8>,
    seen_keys: [bool; KNOWN_KEYS],
    has_text: bool,
    has_operational_text: bool,
    progress: Progress,
    initiator_name: Vec<u8>,
    isid: [u8; 6],
    session_type: SessionType,
    held: Params,
    exp_cmd_sn: u32,
    stat_sn: u32,
}

impl Model for Session {
    ghost use Rattle.iscsi_target_session.specs.Session.{Session};

    ghost Value = { Session };

    ghost view = { λ s. record {
      settings = s.config;
      phase = s.phase;
      stage = s.stage;
      begun = s.begun;
      gathered = s.gathered.items;
      seen_keys = s.seen_keys;
      has_text = s.has_text;
      has_operational_text = s.has_operational_text;
      progress = s.progress;
      initiator_name = s.initiator_name.items;
      isid = s.isid;
      session_type = s.session_type;
      held = s.held;
      exp_cmd_sn = s.exp_cmd_sn;
      stat_sn = s.stat_sn;
    } };
}

impl Session {
    /// A session in which nothing came. It takes no memory.
    pub fn new(alloc: Global, config: Config, first_statsn: u32) -> Session
        ensures { result ≡ opening_session config first_statsn }
    {
        Session {
            config,
            phase: Phase::Login,
            stage: Stage::Security,
            begun: false,
            gathered: Vec::new(alloc),
            seen_keys: [false; KNOWN_KEYS],
            has_text: false,
            has_operational_text: false,
            progress: Progress::Unasked,
            initiator_name: Vec::new(alloc),
            isid: [0; 6],
            session_type: SessionType::Normal,
            held: Params::defaults(),
            exp_cmd_sn: 0,
            stat_sn: first_statsn,
        }
    }

    /// What is held of each key.
    pub fn held(&self) -> &Params
        ensures { result.now ≡ self.now.held }
    {
        &self.held
    }

    /// How many bytes a Data-In has at most: what the initiator takes in one segment, or less where the
    /// target is told so (RFC 7143, section 13.12).
    pub fn data_in_length(&self) -> u32
        ensures value { result ≡ data_in_length self.now }
        ensures some { 512 ≤ result }
        ensures short { result ≤ 16777215 }
    {
        self.config.shortened(self.held.initiator_max_recv)
    }

    /// What the disk tells of itself, where it tells more than the profile has.
    pub fn unit(&self) -> Option<&LogicalUnit>
        ensures { option_map (λ unit. unit.now) result ≡ self.now.settings.extras.unit }
    {
        self.config.unit()
    }

    /// Whether the disk tells more of itself than the profile has.
    pub fn has_unit(&self) -> bool
        ensures { result ≡ is_some self.now.settings.extras.unit }
    {
        self.config.unit().is_some()
    }

    /// What the session is doing.
    pub fn phase(&self) -> Phase
        ensures { result ≡ self.now.phase }
    {
        self.phase
    }

    /// Whether the session is over.
    pub fn is_closed(&self) -> bool
        ensures { result ≡ is_closed_phase self.now.phase }
    {
        matches!(self.phase, Phase::Closed)
    }

    /// The stage of the login.
    pub fn stage(&self) -> Stage
        ensures { result ≡ self.now.stage }
    {
        self.stage
    }

    /// Whether the session is normal or of discovery.
    pub fn session_type(&self) -> SessionType
        ensures { result ≡ self.now.session_type }
    {
        self.session_type
    }

    /// The initiator's name, as the first text of the login gave it; empty before (RFC 7143, section
    /// 13.5).
    pub fn initiator_name(&self) -> &[u8]
        ensures { result.now ≡ self.now.initiator_name }
    {
        &self.initiator_name
    }

    /// The ISID of the first Login Request; zero before (RFC 7143, section 11.12.5).
    pub fn isid(&self) -> [u8; 6]
        ensures { result ≡ self.now.isid }
    {
        self.isid
    }

    /// The serial numbers of an answer, while `n` tasks wait.
    pub fn numbers(&self, waiting: u32) -> Numbers
        ensures stat_sn { result.stat_sn ≡ self.now.stat_sn }
        ensures exp_cmd_sn { result.exp_cmd_sn ≡ self.now.exp_cmd_sn }
        ensures max_cmd_sn { result.max_cmd_sn ≡ max_cmd_sn_with self.now waiting }
    {
        Numbers {
            stat_sn: self.stat_sn,
            exp_cmd_sn: self.exp_cmd_sn,
            max_cmd_sn: self
                .exp_cmd_sn
                .wrapping_add(WINDOW - 1)
                .wrapping_sub(waiting),
        }
    }

    /// An answer was sent that carries StatSN and advances it (RFC 7143, section 4.2.2.2).
    pub fn advance_stat_sn(&mut self)
        ensures { self.new ≡ stat_sn_advanced self.old }
    {
        self.stat_sn = self.stat_sn.wrapping_add(1);
    }

    /// This CmdSN is due.
    pub fn set_exp_cmd_sn(&mut self, cmd_sn: u32)
        ensures { self.new ≡ record self.old { exp_cmd_sn = cmd_sn } }
    {
        self.exp_cmd_sn = cmd_sn;
    }

    /// Closes the session; what was gathered and the CmdSN that was due are dropped.
    pub fn close(&mut self)
        ensures { self.new ≡ ended_session self.old }
    {
        self.phase = Phase::Closed;
        self.gathered.clear();
        self.begun = false;
        self.exp_cmd_sn = 0;
    }

    // One answer that carries StatSN and advances it. No rule is broken.
    #[tactic(auto, using(crate::proofs::ReplyBytesLemmas::one_answer))]
    fn send_response(
        &mut self,
        head: &Head,
        bytes: &[u8],
        out: &mut Vec<u8>,
    ) -> Result<Option<u8>, AllocError>
        requires fits { HeadFits head.now }
        requires short { length bytes.now < 2 ^ 24 }
        ensures { ReplyPost (send_response self.old head.now bytes.now) result
            self.old self.new out.old.items out.new.items }
    {
        write_pdu(head, bytes, out)?;
        self.advance_stat_sn();
        Ok(None)
    }

    /// Rejects a PDU for this reason, with the header of its canonical form (RFC 7143, section 11.17).
    pub fn reject(
        &mut self,
        waiting: u32,
        reason: u8,
        received: &Received<'_>,
        out: &mut Vec<u8>,
    ) -> Result<Option<u8>, AllocError>
        ensures { ReplyPost (message_rejected self.old waiting reason received.now) result
            self.old self.new out.old.items out.new.items }
    {
        let header = canonical_head(*out.allocator(), &received.pdu, received.continued)?;
        let numbers = self.numbers(waiting);
        let head = Head::Reject(Reject {
            reason,
            stat_sn: numbers.stat_sn,
            exp_cmd_sn: numbers.exp_cmd_sn,
            max_cmd_sn: numbers.max_cmd_sn,
        });
        self.send_response(&head, &header, out)
    }

    /// A PDU broke the rule: it is rejected, and the session is closed. Returns the rule.
    pub fn reject_and_close(
        &mut self,
        waiting: u32,
        rule: u8,
        received: &Received<'_>,
        out: &mut Vec<u8>,
    ) -> Result<Option<u8>, AllocError>
        ensures { ReplyPost (reject_and_close self.old waiting rule received.now) result
            self.old self.new out.old.items out.new.items }
    {
        self.reject(waiting, PROTOCOL_ERROR, received, out)?;
        self.close();
        Ok(Some(rule))
    }
}
