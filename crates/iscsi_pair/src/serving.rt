//! Requests that are served one after another, in steps of the pair's own.

ghost use Rattle.std.specs.Prelude.{◌≡◌, ◌⊎◌, [], List, None, false, length, map, IfErr, IfOk, OnOk};
ghost use Rattle.std.specs.List.{AllByRecursion};
ghost use Rattle.scsi_disk.specs.Disk.{disk_of};
ghost use Rattle.iscsi_initiator.specs.declared.request.Done.{Done};
ghost use Rattle.iscsi_text.specs.declared.negotiated.Session.TheVariants as sessions;
ghost use Rattle.iscsi_pair.specs.declared.step.RunFault.TheVariants as faults;
ghost use Rattle.iscsi_pair.specs.declared.step.Step.{Step};
ghost use Rattle.iscsi_pair.specs.Outcomes.{CanBeServed, GivesOutcomes, HasRun, IsIdle, opening_of, requests_among};
ghost use Rattle.iscsi_pair.specs.Served.{IsNormal, IsServed, RunsServed, local_disk_after, disk_outcomes, requests_of};
ghost use Rattle.iscsi_pair.specs.World.{PairEvent, PairEventStep, Opening, PairRuns, SuitEachOther, World, event_of, keeps_no_memory, new_pair};
ghost use Rattle.iscsi_pair.specs.World as worlds;

use crate::pair::{Pair, at_rest, push_some};
use crate::step::{RunFault, Step};
use iscsi_initiator::{Done, Request};
use scsi_disk::MemoryStore;
use std::alloc::Global;

/// The most turns for a login or a request: a request has at most 4,194,305 answers, of which each
/// turn but the last moves one.
const TURNS: u32 = 16_777_216;

/// Hands these requests to a new pair, each once nothing is on its way, and moves what it leads to
/// until nothing is. Returns the outcomes, and what the target's store has then. Returns
/// `NotServed` if an end failed, if a request was refused, or if bytes were still on their way
/// after 16,777,216 turns. No served run comes to that many.
///
/// Where memory holds, requests that any target takes are served (RFC 7143, section 4.2).
pub fn serve_requests(
    alloc: Global,
    configs: (iscsi_initiator::Config, iscsi_target::Config),
    first_statsn: u32,
    store: MemoryStore,
    requests: Vec<Request>,
) -> Result<(Vec<Done>, MemoryStore), RunFault>
    ensures on_disk { IfOk result (λ served.
        let c = opening_of configs.0 configs.1 first_statsn store in
        SuitEachOther c → c.initiator.proposal.session ≡ sessions.Normal
        → AllByRecursion IsServed requests.items
        → (served.0.items ≡ disk_outcomes c requests.items)
        × (disk_of served.1 ≡ local_disk_after c requests.items)) }
    // They are those of a pair to which these requests were handed in, in their order.
    ensures ran { IfOk result (λ served. (events : List PairEvent)
        × (requests_of events ≡ requests.items)
        × HasRun (opening_of configs.0 configs.1 first_statsn store) events served.0.items served.1) }
    ensures served { let c = opening_of configs.0 configs.1 first_statsn store in
        SuitEachOther c → c.initiator.proposal.session ≡ sessions.Normal
        → CanBeServed requests.items
        → IfErr result (λ fault. fault ≡ faults.NoMemory) }
{
    let Ok(mut pair) = Pair::new(alloc, configs.0, configs.1, first_statsn, store) else {
        return Err(RunFault::NoMemory);
    };
    let served = serve_all(&mut pair, alloc, requests);
    // Taken before the fault is looked at, since a pair that is dropped here is dear to prove.
    let store = pair.into_store();
    match served {
        Ok(outcomes) => Ok((outcomes, store)),
        Err(fault) => Err(fault),
    }
}

// Hands in these requests, and returns their outcomes.
fn serve_all(pair: &mut Pair, alloc: Global, requests: Vec<Request>) -> Result<Vec<Done>, RunFault>
    ensures gives { IfOk result (λ outcomes. (events : List PairEvent)
        × (requests_of events ≡ requests.items)
        × GivesOutcomes pair.old events pair.new outcomes.items) }
    ensures none_left { OnOk result ((pair.new.initiator.machine.done ≡ None)
        ⊎ (requests.items ≡ [])) }
    ensures idle { OnOk result (IsIdle pair.new) }
    ensures served { (c : Opening) → pair.old ≡ new_pair c → IsNormal c
        → CanBeServed requests.items → IfErr result (λ fault. fault ≡ faults.NoMemory) }
{
    let mut outcomes = Vec::new(alloc);
    settle(pair)?;
    for request in requests {
        pair.step(Step::Submit(request));
        settle(pair)?;
        let outcome = pair.outcome();
        let Ok(()) = push_some(&mut outcomes, outcome) else {
            return Err(RunFault::NoMemory);
        };
    }
    Ok(outcomes)
}

// Moves what is on its way, and all that it leads to.
fn settle(pair: &mut Pair) -> Result<(), RunFault>
    ensures ran { (steps : List Step) × (requests_among steps ≡ [])
        × PairRuns pair.old (map event_of steps) pair.new }
    ensures ok { OnOk result (IsIdle pair.new) }
    ensures err { IfErr result (λ fault. (fault ≡ faults.NoMemory)
        ⊎ ((keeps_no_memory pair.new ≡ false)
        × ((c : Opening) (events : List PairEvent) (outcomes : List Done) → IsNormal c
        → RunsServed (new_pair c) events pair.old outcomes → ⊥))) }
{
    for _ in 0..TURNS {
        if pair.is_silent() {
            return at_rest(pair);
        }
        turn(pair);
    }
    at_rest(pair)
}

// All that is on its way to the target reaches it, and then all that is on its way back the
// initiator.
fn turn(pair: &mut Pair)
    ensures { (mid : World) × PairEventStep pair.old (worlds.ToTarget (length pair.old.to_target))
        mid
        × PairEventStep mid (worlds.ToInitiator (length mid.to_initiator)) pair.new }
{
    let (there, _) = pair.queued();
    pair.step(Step::ToTarget(there));
    let (_, back) = pair.queued();
    pair.step(Step::ToInitiator(back));
}
