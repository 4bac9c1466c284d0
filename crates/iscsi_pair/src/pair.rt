//! A target and an initiator, and the bytes between them. One file, more than half of which is the
//! contracts of one type.

ghost use Rattle.std.specs.Prelude.{◌≡◌, ◌⊎◌, false, Some, None, [], ◌++◌, ◌↔◌, IsTrue, IsSome, OnOk, IfSome, length, map, IfOk, IfErr, MatchOption};
ghost use Rattle.iscsi_initiator.specs.declared.fault.InitiatorFault.TheVariants as faults;
ghost use Rattle.iscsi_pair.specs.World.{IsOpening, SuitEachOther, new_pair, PairEventStep, PairRuns, RunsCalmly, World, event_of, keeps_no_memory};
ghost use Rattle.iscsi_pair.specs.declared.step.RunFault.TheVariants as run_faults;
ghost use Rattle.iscsi_initiator.specs.Calls.{InitiatorStartPost};
ghost use Rattle.iscsi_initiator.specs.Calls as initiator_calls;
ghost use Rattle.iscsi_target.specs.Feed as target_calls;
ghost use Rattle.iscsi_pair.specs.World as worlds;
ghost use Rattle.std.specs.List.{AllByRecursion};
ghost use Rattle.scsi_disk.specs.Disk.{disk_of};
ghost use Rattle.iscsi_initiator.specs.Laws.{listed};
ghost use Rattle.iscsi_pair.specs.Served.{IsServed, local_disk_after, disk_outcomes};
ghost use Rattle.iscsi_pair.specs.Outcomes.{GivesOutcomes, HasRun, IsIdle, step_events, opening_of, requests_among};
ghost use Rattle.iscsi_text.specs.declared.negotiated.Session.TheVariants as sessions;
ghost use Rattle.iscsi_login.specs.declared.stage.Stage.TheVariants as stages;

use crate::step::{
    EndFault, RunFault, Step, feed_fault, initiator_ran_out, submit_fault, target_ran_out,
};
use iscsi_initiator::{Done, Initiator, InitiatorFault, Request};
use iscsi_login::{Params, Stage};
use iscsi_stream::drop_front;
use iscsi_target::{Target, TargetFault};
use scsi_disk::MemoryStore;
use std::alloc::{AllocError, Global};
use std::marker::Model;

/// A target and an initiator of one session, with the bytes that are on their way between them.
///
/// What an end writes is queued for the other, and reaches it in pieces of any length. An end's
/// first fault is kept, and for the initiator a refused request is one; from then on the end only
/// drops what is moved to it.
#[derive(Drop)]
pub struct Pair {
    // Boxed, since what owns two machines is dear to move, and to prove.
    ends: Box<Ends>,
}

impl Model for Pair {
    ghost use Rattle.iscsi_pair.specs.World.{World};
    ghost use Rattle.iscsi_pair.specs.inner.World.{HasCome};

    ghost Value = { World };

    ghost view = { λ p. p.ends.value };

    ghost invariant = { λ p. HasCome p.ends.value };
}

impl Pair {
    /// A pair whose initiator has started its login. On a fault what was handed in is dropped;
    /// memory alone can be wanting.
    pub fn new(
        alloc: Global,
        initiator: iscsi_initiator::Config,
        target: iscsi_target::Config,
        first_statsn: u32,
        store: MemoryStore,
    ) -> Result<Pair, InitiatorFault>
        ensures opening { IfOk result (λ pair. pair ≡ new_pair (record {
          initiator = initiator;
          target = target;
          first_stat_sn = first_statsn;
          blocks = store;
        })) }
        // Its configurations are those that the laws are of.
        ensures in_range { IsOpening (record {
          initiator = initiator;
          target = target;
          first_stat_sn = first_statsn;
          blocks = store;
        }) }
        ensures memory { IfErr result (λ fault. fault ≡ faults.NoMemory) }
    {
        let mut ends = Ends::unstarted(alloc, initiator, target, first_statsn, store);
        if let Err(fault) = ends.start() {
            // Taken apart, since ends that are dropped here are dear to prove.
            ends.into_store();
            return Err(fault);
        }
        match Box::new(alloc, ends) {
            Ok(ends) => Ok(Pair { ends }),
            Err(_) => Err(InitiatorFault::NoMemory),
        }
    }

    // The ends, for those that look: a box that is opened is dear to prove, so that this stands once.
    fn ends(&self) -> &Ends
        ensures { result.now ≡ self.now }
    {
        &self.ends
    }

    /// The target's end.
    pub fn target(&self) -> &Target
        ensures target { result.now ≡ self.now.target }
    {
        &self.ends().target
    }

    /// The initiator's end.
    pub fn initiator(&self) -> &Initiator
        ensures initiator { result.now ≡ self.now.initiator }
    {
        &self.ends().initiator
    }

    /// The target's first fault.
    pub fn target_fault(&self) -> Option<&TargetFault>
        ensures fault { MatchOption result (self.now.target_fault ≡ None)
            (λ fault. self.now.target_fault ≡ Some fault.now) }
    {
        self.ends().target_fault.as_ref()
    }

    /// The initiator's first fault, or its first refusal of a request.
    pub fn initiator_fault(&self) -> Option<&EndFault>
        ensures fault { MatchOption result (self.now.initiator_fault ≡ None)
            (λ fault. self.now.initiator_fault ≡ Some fault.now) }
    {
        self.ends().initiator_fault.as_ref()
    }

    /// What the target holds of the login, and what the initiator holds, once the initiator has
    /// completed its login: both hold the same, whatever came since (RFC 7143, section 6.3).
    #[tactic(auto, using(crate::proofs::Run::ComesLemmas::agreed, crate::proofs::Run::ComesLemmas::both_full))]
    pub fn params(&self) -> Option<(&Params, &Params)>
        ensures equal { IfSome result (λ both. both.1.now ≡ both.0.now) }
        ensures ends { IfSome result (λ both. (both.0.now ≡ self.now.target.machine.session.held)
            × (both.1.now ≡ self.now.initiator.machine.held)) }
        ensures some { IsSome result ↔ (self.now.initiator.machine.stage ≡ stages.Full) }
        ensures both { IsSome result → self.now.target.machine.session.stage ≡ stages.Full }
    {
        let ends: &Ends = &self.ends;
        match ends.initiator.stage() {
            Stage::Full => Some((ends.target.params(), ends.initiator.params())),
            Stage::Security | Stage::Operational => None,
        }
    }

    /// How many bytes are queued for the target, and how many for the initiator.
    pub fn queued(&self) -> (usize, usize)
        ensures target { result.0 ≡ length self.now.to_target }
        ensures initiator { result.1 ≡ length self.now.to_initiator }
    {
        let ends = self.ends();
        (ends.to_target.len(), ends.to_initiator.len())
    }

    /// Whether no end has failed, and nothing is on its way.
    pub fn is_idle(&self) -> bool
        ensures { IsTrue result ↔ IsIdle self.now }
    {
        self.ends().is_idle()
    }

    // Whether nothing is on its way.
    pub(crate) fn is_silent(&self) -> bool
        ensures { IsTrue result ↔ (self.now.to_target ≡ []) × (self.now.to_initiator ≡ []) }
    {
        self.ends().is_silent()
    }

    /// The target's blocks.
    pub fn into_store(self) -> MemoryStore
        ensures store { result ≡ self.blocks }
    {
        Box::into_inner(self.ends).into_store()
    }

    /// Takes the initiator's outcome, once it is there.
    pub fn outcome(&mut self) -> Option<Done>
        ensures outcome { result ≡ self.old.initiator.machine.done }
        ensures taken { PairEventStep self.old worlds.Takes self.new }
    {
        self.ends.outcome()
    }

    pub(crate) fn step(&mut self, step: Step)
        ensures { PairEventStep self.old (event_of step) self.new }
    {
        self.ends.step(step);
    }

    // Whether an end keeps that memory ran out.
    pub(crate) fn ran_out(&self) -> bool
        ensures { result ≡ keeps_no_memory self.now }
    {
        self.ends().ran_out()
    }

    /// Takes these steps, one after another. Where memory runs out in a step, its end keeps that.
    #[tactic(auto, using(crate::proofs::Run::MemoryLemmas::calm))]
    pub fn run(&mut self, steps: Vec<Step>)
        ensures ran { PairRuns self.old (map event_of steps.items) self.new }
        // Where no end keeps that memory ran out, no growth was refused: then the steps alone
        // determine to which world they lead (`laws::one_world`).
        ensures calm { keeps_no_memory self.new ≡ false
            → RunsCalmly self.old (map event_of steps.items) self.new }
    {
        for step in steps {
            self.step(step);
        }
    }
}

/// A new pair takes these steps, one after another, and behind each the outcome is taken, if one is
/// there. Returns the outcomes and what the target's store has then. Returns `NoMemory` where memory
/// ran out, in an end too, and else `NotServed` where an end failed, a request was refused, or bytes
/// are on their way still.
///
/// However the steps cut and mix what is on its way, the outcomes are those of one local disk.
pub fn outcomes_over(
    alloc: Global,
    configs: (iscsi_initiator::Config, iscsi_target::Config),
    first_statsn: u32,
    store: MemoryStore,
    steps: Vec<Step>,
) -> Result<(Vec<Done>, MemoryStore), RunFault>
    ensures on_disk { IfOk result (λ served.
        let c = opening_of configs.0 configs.1 first_statsn store in
        let requests = requests_among steps.items in
        SuitEachOther c → c.initiator.proposal.session ≡ sessions.Normal
        → AllByRecursion IsServed requests
        → (served.0.items ≡ disk_outcomes c requests) × (disk_of served.1 ≡ local_disk_after c requests)) }
    // They are those of the pair, which took these steps and no others.
    ensures ran { IfOk result (λ served.
        HasRun (opening_of configs.0 configs.1 first_statsn store) (step_events steps.items)
        served.0.items served.1) }
    // Steps that bring a pair to rest, where no growth is refused, are not refused here.
    ensures rested { (w : World) → RunsCalmly (new_pair (opening_of configs.0 configs.1 first_statsn store))
        (step_events steps.items) w
        → IsIdle w → IfErr result (λ fault. fault ≡ run_faults.NoMemory) }
{
    let Ok(mut pair) = Pair::new(alloc, configs.0, configs.1, first_statsn, store) else {
        return Err(RunFault::NoMemory);
    };
    let given = outcomes_behind(&mut pair, alloc, steps);
    // Taken before the fault is looked at, since a pair that is dropped here is dear to prove.
    let store = pair.into_store();
    match given {
        Ok(outcomes) => Ok((outcomes, store)),
        Err(fault) => Err(fault),
    }
}

// The outcomes behind these steps.
fn outcomes_behind(pair: &mut Pair, alloc: Global, steps: Vec<Step>) -> Result<Vec<Done>, RunFault>
    ensures gives { IfOk result (λ outcomes.
        GivesOutcomes pair.old (step_events steps.items) pair.new outcomes.items) }
    ensures none_left { OnOk result (pair.old.initiator.machine.done ≡ None
        → pair.new.initiator.machine.done ≡ None) }
    ensures idle { OnOk result (IsIdle pair.new) }
    ensures err { IfErr result (λ fault. (fault ≡ run_faults.NoMemory)
        ⊎ (PairRuns pair.old (step_events steps.items) pair.new
        × (keeps_no_memory pair.new ≡ false) × (IsIdle pair.new → ⊥))) }
{
    let mut outcomes = Vec::new(alloc);
    for step in steps {
        pair.step(step);
        let outcome = pair.outcome();
        let Ok(()) = push_some(&mut outcomes, outcome) else {
            return Err(RunFault::NoMemory);
        };
    }
    match at_rest(pair) {
        Ok(()) => Ok(outcomes),
        Err(fault) => Err(fault),
    }
}

// Whether a pair has served all that it was asked.
pub(crate) fn at_rest(pair: &Pair) -> Result<(), RunFault>
    ensures ok { OnOk result (IsIdle pair.now) }
    ensures err { IfErr result (λ fault. (fault ≡ run_faults.NoMemory)
        ⊎ ((keeps_no_memory pair.now ≡ false) × (IsIdle pair.now → ⊥))) }
{
    if pair.ran_out() {
        return Err(RunFault::NoMemory);
    }
    if !pair.is_idle() {
        return Err(RunFault::NotServed);
    }
    Ok(())
}

// Appends an outcome, if there is one.
pub(crate) fn push_some(outcomes: &mut Vec<Done>, outcome: Option<Done>) -> Result<(), AllocError>
    ensures ok { OnOk result (outcomes.new.items ≡ outcomes.old.items ++ listed outcome) }
{
    if let Some(outcome) = outcome {
        outcomes.push(outcome)?;
    }
    Ok(())
}

// What a pair is, wherever it came from.
#[derive(Drop)]
struct Ends {
    target: Target,
    store: MemoryStore,
    initiator: Initiator,
    to_target: Vec<u8>,
    to_initiator: Vec<u8>,
    target_fault: Option<TargetFault>,
    initiator_fault: Option<EndFault>,
}

impl Model for Ends {
    ghost use Rattle.iscsi_pair.specs.World.{World};

    ghost Value = { World };

    ghost view = { λ p. record {
      target = p.target;
      blocks = p.store;
      initiator = p.initiator;
      to_target = p.to_target.items;
      to_initiator = p.to_initiator.items;
      target_fault = p.target_fault;
      initiator_fault = p.initiator_fault;
    } };
}

impl Ends {
    // The target's blocks.
    fn into_store(self) -> MemoryStore
        ensures store { result ≡ self.blocks }
    {
        self.store
    }

    // Whether no end has failed, and nothing is on its way.
    fn is_idle(&self) -> bool
        ensures { IsTrue result ↔ IsIdle self.now }
    {
        self.target_fault.is_none()
            && self.initiator_fault.is_none()
            && self.to_target.is_empty()
            && self.to_initiator.is_empty()
    }

    // Whether an end keeps that memory ran out.
    fn ran_out(&self) -> bool
        ensures { result ≡ keeps_no_memory self.now }
    {
        target_ran_out(&self.target_fault) || initiator_ran_out(&self.initiator_fault)
    }

    // Whether nothing is on its way.
    fn is_silent(&self) -> bool
        ensures { IsTrue result ↔ (self.now.to_target ≡ []) × (self.now.to_initiator ≡ []) }
    {
        self.to_target.is_empty() && self.to_initiator.is_empty()
    }

    // Those of a new pair, whose initiator has yet to start its login.
    fn unstarted(
        alloc: Global,
        initiator: iscsi_initiator::Config,
        target: iscsi_target::Config,
        first_statsn: u32,
        store: MemoryStore,
    ) -> Ends
        ensures ends { result ≡ record {
          target = target_calls.opening_target target first_statsn;
          blocks = store;
          initiator = initiator_calls.opening_initiator initiator;
          to_target = [];
          to_initiator = [];
          target_fault = None;
          initiator_fault = None;
        } }
        ensures in_range { IsOpening (record {
          initiator = initiator;
          target = target;
          first_stat_sn = first_statsn;
          blocks = store;
        }) }
    {
        Ends {
            target: Target::new(alloc, target, first_statsn),
            store,
            initiator: Initiator::new(alloc, initiator),
            to_target: Vec::new(alloc),
            to_initiator: Vec::new(alloc),
            target_fault: None,
            initiator_fault: None,
        }
    }

    // Starts the login of the initiator.
    fn start(&mut self) -> Result<(), InitiatorFault>
        ensures starts { InitiatorStartPost result self.old.initiator self.new.initiator
            self.old.to_target self.new.to_target }
        ensures others { self.new ≡ record self.old {
          initiator = self.new.initiator;
          to_target = self.new.to_target;
        } }
    {
        self.initiator.start(&mut self.to_target)
    }

    // Takes the initiator's outcome, once it is there.
    fn outcome(&mut self) -> Option<Done>
        ensures outcome { result ≡ self.old.initiator.machine.done }
        ensures taken { PairEventStep self.old worlds.Takes self.new }
    {
        self.initiator.outcome()
    }

    // Moves bytes to the target.
    fn move_to_target(&mut self, k: usize)
        ensures { PairEventStep self.old (worlds.ToTarget k) self.new }
    {
        let n = k.min(self.to_target.len());
        if n == 0 {
            return;
        }
        if self.target_fault.is_some() {
            drop_front(&mut self.to_target, n);
            return;
        }
        let fed = self.target.feed(
            &self.to_target[..n],
            &mut self.store,
            &mut self.to_initiator,
        );
        drop_front(&mut self.to_target, n);
        self.target_fault = fed.err();
    }

    // Moves bytes to the initiator.
    fn move_to_initiator(&mut self, k: usize)
        ensures { PairEventStep self.old (worlds.ToInitiator k) self.new }
    {
        let n = k.min(self.to_initiator.len());
        if n == 0 {
            return;
        }
        if self.initiator_fault.is_some() {
            drop_front(&mut self.to_initiator, n);
            return;
        }
        let fed = self
            .initiator
            .feed(&self.to_initiator[..n], &mut self.to_target);
        drop_front(&mut self.to_initiator, n);
        self.initiator_fault = feed_fault(fed);
    }

    // Hands a request to the initiator.
    fn submit(&mut self, request: Request)
        ensures { PairEventStep self.old (worlds.Submits request) self.new }
    {
        if self.initiator_fault.is_some() {
            return;
        }
        let submitted = self.initiator.submit(request, &mut self.to_target);
        self.initiator_fault = submit_fault(submitted);
    }

    fn step(&mut self, step: Step)
        ensures { PairEventStep self.old (event_of step) self.new }
    {
        match step {
            Step::ToTarget(k) => self.move_to_target(k),
            Step::ToInitiator(k) => self.move_to_initiator(k),
            Step::Submit(request) => self.submit(request),
        }
    }
}
