//! What another program does with `iscsi_pair`.

ghost use Rattle.std.specs.Prelude.{◌≡◌, map, IfErr, IfOk, IsTrue};
ghost use Rattle.std.specs.List.{AllByRecursion};
ghost use Rattle.iscsi_text.specs.declared.negotiated.Session.TheVariants as sessions;
ghost use Rattle.iscsi_pair.specs.declared.step.RunFault.TheVariants as faults;
ghost use Rattle.iscsi_pair.specs.Outcomes.{CanBeServed, opening_of, requests_among};
ghost use Rattle.iscsi_pair.specs.Served.{IsServed, disk_outcomes};
ghost use Rattle.iscsi_pair.specs.World.{World, PairEventStep, PairRuns, SuitEachOther, Takes, event_of};

use iscsi_initiator::{Done, Request};
use iscsi_login::NegKey;
use iscsi_pair::{Pair, RunFault, Step, outcomes_over, serve_requests};
use scsi_disk::MemoryStore;
use std::alloc::Global;

/// Takes the outcome of the last request after these steps, if it is there.
pub fn outcome_after(pair: &mut Pair, steps: Vec<Step>) -> Option<Done>
    ensures ran { (w : World) × PairRuns pair.old (map event_of steps.items) w
        × (result ≡ w.initiator.machine.done) × PairEventStep w Takes pair.new }
{
    pair.run(steps);
    pair.outcome()
}

/// Whether both ends hold one value of this key, if both have logged in. They do.
pub fn agree_on(pair: &Pair, key: NegKey) -> bool
    ensures agree { IsTrue result }
{
    match pair.params() {
        Some((target, initiator)) => target.get(key) == initiator.get(key),
        None => true,
    }
}

/// What comes of requests that reach a target in these steps: what one local disk gives.
pub fn outcomes_in_steps(
    alloc: Global,
    configs: (iscsi_initiator::Config, iscsi_target::Config),
    store: MemoryStore,
    steps: Vec<Step>,
) -> Result<Vec<Done>, RunFault>
    ensures outcomes { IfOk result (λ outcomes.
        let c = opening_of configs.0 configs.1 1 store in
        let requests = requests_among steps.items in
        SuitEachOther c → c.initiator.proposal.session ≡ sessions.Normal
        → AllByRecursion IsServed requests → outcomes.items ≡ disk_outcomes c requests) }
{
    let (outcomes, _) = outcomes_over(alloc, configs, 1, store, steps)?;
    Ok(outcomes)
}

/// What comes of these requests: what one local disk gives. They are served where memory holds.
pub fn outcomes_of(
    alloc: Global,
    configs: (iscsi_initiator::Config, iscsi_target::Config),
    store: MemoryStore,
    requests: Vec<Request>,
) -> Result<Vec<Done>, RunFault>
    ensures outcomes { IfOk result (λ outcomes. let c = opening_of configs.0 configs.1 1 store in
        SuitEachOther c → c.initiator.proposal.session ≡ sessions.Normal
        → AllByRecursion IsServed requests.items
        → outcomes.items ≡ disk_outcomes c requests.items) }
    ensures served { let c = opening_of configs.0 configs.1 1 store in
        SuitEachOther c → c.initiator.proposal.session ≡ sessions.Normal
        → CanBeServed requests.items
        → IfErr result (λ fault. fault ≡ faults.NoMemory) }
{
    let (outcomes, _) = serve_requests(alloc, configs, 1, store, requests)?;
    Ok(outcomes)
}
