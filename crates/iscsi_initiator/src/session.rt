//! A session between two messages.

ghost use Rattle.std.specs.Prelude.{◌≡◌, Some};
ghost use Rattle.iscsi_pdu.specs.Meaning.{HeadFits};
ghost use Rattle.iscsi_stream.specs.Stream.{message};
ghost use Rattle.iscsi_initiator.specs.declared.fault.InitiatorFault.TheVariants.{Protocol};
ghost use Rattle.iscsi_initiator.specs.State.{new_session, is_session_closed, sent_exp_stat_sn};
ghost use Rattle.iscsi_initiator.specs.Steps.{closed_session};
ghost use Rattle.iscsi_initiator.specs.Machine.{initiator_step, outcome_handed_out};
ghost use Rattle.iscsi_initiator.specs.inner.Inside.{SessionStepPost, CountedStepPost};

mod data_in;
mod data_out;
mod dispatch;
mod login;
mod r2t;
mod requests;
mod responses;

use crate::config::Config;
use crate::fault::InitiatorFault;
use crate::outstanding::Outstanding;
use crate::request::Done;
use iscsi_login::{Params, Phase, Stage};
use iscsi_pdu::rule::KIND_NOT_DUE;
use iscsi_pdu::{Pdu, Serial, Window};
use std::alloc::{AllocError, Global};
use std::marker::Model;

/// A session between two messages. Where a call runs out of memory it has written nothing and is as
/// it was.
#[derive(Drop)]
pub struct Session {
    config: Config,
    started: bool,
    phase: Phase,
    stage: Stage,
    unsent_text: Vec<u8>,
    exp_stat_sn: Option<u32>,
    held: Params,
    window: Window,
    cmd_sn: u32,
    initiator_task_tag: u32,
    outstanding: Option<Outstanding>,
    done: Option<Done>,
}

impl Model for Session {
    ghost use Rattle.std.specs.Prelude.{◌<◌};
    ghost use Rattle.iscsi_initiator.specs.State.{InitiatorSession};

    ghost Value = { InitiatorSession };

    ghost view = { λ s. record {
      settings = s.config;
      started = s.started;
      phase = s.phase;
      stage = s.stage;
      unsent_text = s.unsent_text.items;
      exp_stat_sn = s.exp_stat_sn;
      held = s.held;
      window = s.window;
      cmd_sn = s.cmd_sn;
      initiator_task_tag = s.initiator_task_tag;
      outstanding = s.outstanding;
      done = s.done;
    } };

    // A tag is never the one that names no task.
    ghost invariant = { λ s. s.initiator_task_tag < 0xffff_ffff };
}

impl Session {
    /// A session to which nothing came. It takes no memory.
    pub fn new(alloc: Global, config: Config) -> Session
        ensures { result ≡ new_session config }
    {
        let first_cmd_sn = config.first_cmd_sn();
        let held = Params::declaring(config.preferences().max_recv);
        let stage = config.start();
        Session {
            config,
            started: false,
            phase: Phase::Login,
            stage,
            unsent_text: Vec::new(alloc),
            exp_stat_sn: None,
            held,
            window: Window {
                exp: Serial(first_cmd_sn),
                max: Serial(first_cmd_sn.wrapping_sub(1)),
            },
            cmd_sn: first_cmd_sn,
            initiator_task_tag: 0,
            outstanding: None,
            done: None,
        }
    }

    /// What is agreed and declared.
    pub fn params(&self) -> &Params
        ensures { result.now ≡ self.now.held }
    {
        &self.held
    }

    /// What the session is doing.
    pub fn phase(&self) -> Phase
        ensures { result ≡ self.now.phase }
    {
        self.phase
    }

    /// Where the login is, or was when the session closed.
    pub fn stage(&self) -> Stage
        ensures { result ≡ self.now.stage }
    {
        self.stage
    }

    /// Whether the session is over.
    pub fn is_closed(&self) -> bool
        ensures { result ≡ is_session_closed self.now }
    {
        matches!(self.phase, Phase::Closed)
    }

    /// Closes the session.
    pub fn close(&mut self)
        ensures { self.new ≡ closed_session self.old }
    {
        self.phase = Phase::Closed;
    }

    /// Takes a message, which continues another login PDU or does not. Says which fault it led to, if
    /// it led to one; the session is closed then.
    pub fn step(
        &mut self,
        pdu: &Pdu<'_>,
        continued: bool,
        out: &mut Vec<u8>,
    ) -> Result<Option<InitiatorFault>, AllocError>
        requires fits { HeadFits pdu.now.head }
        ensures { SessionStepPost (initiator_step self.old
            (message continued pdu.now.head pdu.now.bytes.now))
            result self.old self.new out.old.items out.new.items }
    {
        let (exp_stat_sn, window) = (self.exp_stat_sn, self.window);
        let result = self.on_message(pdu, continued, out);
        if result.is_err() {
            self.exp_stat_sn = exp_stat_sn;
            self.window = window;
        }
        result
    }

    // The same, but where memory runs out the message's numbers may be counted.
    #[tactic(auto, using(crate::proofs::StepLemmas::full_bytes, crate::proofs::StepLemmas::step_is))]
    fn on_message(
        &mut self,
        pdu: &Pdu<'_>,
        continued: bool,
        out: &mut Vec<u8>,
    ) -> Result<Option<InitiatorFault>, AllocError>
        requires fits { HeadFits pdu.now.head }
        ensures { CountedStepPost (initiator_step self.old
            (message continued pdu.now.head pdu.now.bytes.now))
            result self.old self.new out.old.items out.new.items }
    {
        match self.phase {
            Phase::Login if !self.started => Ok(self.protocol_error(KIND_NOT_DUE)),
            Phase::Login => self.login_step(pdu, continued, out),
            Phase::Full => self.full_step(&pdu.head, pdu.bytes, out),
            Phase::Closed => Ok(None),
        }
    }

    /// Takes the outcome of the last request, if there is one.
    pub fn outcome(&mut self) -> Option<Done>
        ensures outcome { result ≡ self.old.done }
        ensures taken { self.new ≡ outcome_handed_out self.old }
    {
        self.done.take()
    }

    // A fault closes the session.
    fn fails(&mut self, fault: InitiatorFault) -> Option<InitiatorFault>
        ensures fault { result ≡ Some fault }
        ensures closed { self.new ≡ closed_session self.old }
    {
        self.close();
        Some(fault)
    }

    // The target broke this rule, which closes the session.
    fn protocol_error(&mut self, rule: u8) -> Option<InitiatorFault>
        ensures fault { result ≡ Some (Protocol rule) }
        ensures closed { self.new ≡ closed_session self.old }
    {
        self.fails(InitiatorFault::Protocol(rule))
    }

    // The ExpStatSN of what is sent: 0 before the first answer (RFC 7143, section 11.12.9).
    fn sent_exp_stat_sn(&self) -> u32
        ensures { result ≡ sent_exp_stat_sn self.now }
    {
        self.exp_stat_sn.unwrap_or(0)
    }
}
