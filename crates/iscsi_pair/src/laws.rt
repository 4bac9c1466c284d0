//! Laws of a pair: functions with no work, whose contracts are of the definitions alone.
//!
//! They hold over every configuration and every list of events, however the bytes are cut, and
//! wherever memory runs out but where a law says that no growth was refused. `one_request` is of
//! any two ends that are in step, over whole messages.

ghost use Rattle.std.specs.Prelude.{◌≡◌, ◌≤◌, ◌⊎◌, ◌++◌, ◌∷◌, [], ℕ, List, None, false, length};
ghost use Rattle.std.specs.List.{AllByRecursion};
ghost use Rattle.scsi_disk.specs.Disk.{Disk, disk_of};
ghost use Rattle.iscsi_login.specs.declared.stage.Stage.TheVariants as stages;
ghost use Rattle.iscsi_target.specs.State as target;
ghost use Rattle.iscsi_initiator.specs.declared.request.Done.{Done};
ghost use Rattle.iscsi_initiator.specs.declared.request.Request.{Request};
ghost use Rattle.iscsi_initiator.specs.declared.request.Request.TheVariants as requests;
ghost use Rattle.iscsi_initiator.specs.Laws.{SessionInput, listed};
ghost use Rattle.iscsi_initiator.specs.Machine.{outcome_handed_out};
ghost use Rattle.iscsi_initiator.specs.State as initiator;
ghost use Rattle.iscsi_initiator.specs.Submitted.{is_request_too_long, submitted};
ghost use Rattle.iscsi_pair.specs.LocalDisk.{AreInStep, EndsAfterAnswers, handed_in, local};
ghost use Rattle.iscsi_pair.specs.Example.{NameSame, first_read, first_written, good_done, standard_opening};
ghost use Rattle.iscsi_pair.specs.Served.{AreAtEnd, IsAlwaysTaken, IsNormal, IsServed, RunsServed, SomeRunServes, requests_of, local_disk_after, disk_outcomes};
ghost use Rattle.iscsi_pair.specs.World.{PairEvent, IsOpening, LooksAlike, Opening, Reached, RunsCalmly, RunsInTime, SuitEachOther, World, keeps_no_memory, new_pair};
ghost use Rattle.iscsi_pair.specs.Traffic.{Traffic, TracesTraffic, first_traffic, TargetStands, InitiatorStands};

/// Every run can be traced.
pub fn every_run_is_traced()
    ensures traced { (c : Opening) (events : List PairEvent) (w : World) → Reached c events w
        → (t : Traffic) × TracesTraffic (first_traffic c) (new_pair c) events w t }
{}

/// No byte is lost, added or moved out of order: what was moved to an end and what is still queued
/// for it are all that was queued for it.
pub fn queues()
    ensures target { (c : Opening) (events : List PairEvent) (w : World) (t : Traffic)
        → TracesTraffic (first_traffic c) (new_pair c) events w t
        → t.moved_to_target ++ w.to_target ≡ t.queued_for_target }
    ensures initiator { (c : Opening) (events : List PairEvent) (w : World) (t : Traffic)
        → TracesTraffic (first_traffic c) (new_pair c) events w t
        → t.moved_to_initiator ++ w.to_initiator ≡ t.queued_for_initiator }
{}

/// While an end hasn't failed, it is where its machine goes with the PDUs that were moved to it.
/// The machine of the initiator also gets the requests handed in and the outcomes taken, in the
/// order of the events. What its machine sends is what was queued for the other end.
pub fn ends()
    ensures target { (c : Opening) (events : List PairEvent) (w : World) (t : Traffic)
        → TracesTraffic (first_traffic c) (new_pair c) events w t → w.target_fault ≡ None
        → TargetStands c t w }
    ensures initiator { (c : Opening) (events : List PairEvent) (w : World) (t : Traffic)
        → TracesTraffic (first_traffic c) (new_pair c) events w t → w.initiator_fault ≡ None
        → (inputs : List SessionInput) × InitiatorStands c inputs t w }
    // In the order of the events: however far they had come, what the initiator had met by then is
    // the first of what it has met after them all.
    ensures order { (c : Opening) (past more : List PairEvent) (mid w : World) (u t : Traffic)
        (inputs : List SessionInput) → TracesTraffic (first_traffic c) (new_pair c) past mid u
        → InitiatorStands c inputs u mid → TracesTraffic u mid more w t → w.initiator_fault ≡ None
        → (later : List SessionInput) × InitiatorStands c (inputs ++ later) t w }
{}

/// One world: where no growth is refused, the events alone determine to which world a pair comes,
/// however its ends use their memory.
pub fn one_world()
    ensures one { (c : Opening) (events : List PairEvent) (v w : World)
        → RunsCalmly (new_pair c) events v → RunsCalmly (new_pair c) events w → LooksAlike v w }
{}

/// Login agreement: where the initiator has completed its login, the target has, and both hold the
/// same of every negotiated key and of what each takes in one segment. Later faults and the end of
/// the session don't undo it (RFC 7143, section 6.3).
pub fn login_agreement()
    ensures both { (c : Opening) (events : List PairEvent) (w : World) → IsOpening c
        → Reached c events w → w.initiator.machine.stage ≡ stages.Full
        → w.target.machine.session.stage ≡ stages.Full }
    ensures equal { (c : Opening) (events : List PairEvent) (w : World) → IsOpening c
        → Reached c events w → w.initiator.machine.stage ≡ stages.Full
        → w.target.machine.session.held ≡ w.initiator.machine.held }
{}

/// An idle pair has completed its login. If nothing is on its way and neither end has failed, both
/// are in full feature phase, or were until they parted (RFC 7143, section 6.3).
pub fn idle_pair()
    ensures initiator { (c : Opening) (events : List PairEvent) (w : World) → IsOpening c
        → Reached c events w → w.to_target ≡ [] → w.to_initiator ≡ []
        → w.target_fault ≡ None → w.initiator_fault ≡ None
        → w.initiator.machine.stage ≡ stages.Full }
    ensures target { (c : Opening) (events : List PairEvent) (w : World) → IsOpening c
        → Reached c events w → w.to_target ≡ [] → w.to_initiator ≡ []
        → w.target_fault ≡ None → w.initiator_fault ≡ None
        → w.target.machine.session.stage ≡ stages.Full }
{}

/// No failure before login. Premises: the names suit each other, neither end demands authentication,
/// the target lets in this initiator, no growth was refused, and no request came too early. Then an end
/// that keeps a fault had completed its login (RFC 7143, sections 6.3, 11.13.5, 12.1 and 13.4).
pub fn no_early_failure()
    ensures target { (c : Opening) (events : List PairEvent) (w : World) → IsOpening c
        → SuitEachOther c
        → RunsInTime (new_pair c) events w → keeps_no_memory w ≡ false
        → (w.target_fault ≡ None) ⊎ (w.target.machine.session.stage ≡ stages.Full) }
    ensures initiator { (c : Opening) (events : List PairEvent) (w : World) → IsOpening c
        → SuitEachOther c
        → RunsInTime (new_pair c) events w → keeps_no_memory w ≡ false
        → (w.initiator_fault ≡ None) ⊎ (w.initiator.machine.stage ≡ stages.Full) }
{}

/// A request is that of a local disk. Between ends in step, a command, a ping or a logout that is
/// accepted has, after some answers, the outcome that it has on the target's disk. It leaves the
/// disk that it leaves there. Both ends are in step then, or have parted (RFC 7143, sections 11.3,
/// 11.4, 11.7, 11.8, 11.14 and 11.18).
pub fn one_request()
    ensures ends { (m : initiator.InitiatorSession) (t : target.Machine) (disk : Disk)
        (request : Request)
        → IsServed request → AreInStep m t → (submitted m request).refusal ≡ None
        → let unit = target.unit_of t.session in
        let here = local m.held.initiator_max_recv unit disk request in
        EndsAfterAnswers m.held unit here.outcome here.disk (handed_in m t disk request) }
    // Each is accepted that isn't too long.
    ensures accepted { (m : initiator.InitiatorSession) (t : target.Machine) (request : Request)
        → AreInStep m t → is_request_too_long m request ≡ false → (submitted m request).refusal
        ≡ None }
{}

/// The end of a run shows that it was served. If no end keeps that memory ran out, and the
/// initiator keeps no fault, no growth was refused in it, and each request was accepted. They are
/// to be commands, pings and logouts.
pub fn served_runs()
    ensures served { (c : Opening) (events : List PairEvent) (w : World) → Reached c events w
        → AllByRecursion IsServed (requests_of events) → keeps_no_memory w ≡ false
        → w.initiator_fault ≡ None
        → (outcomes : List Done) × RunsServed (new_pair c) events w outcomes }
{}

/// One local disk. Premises: the names suit each other, neither end demands authentication, the
/// target lets in this initiator, and the session is a normal one in which no growth is refused. Each
/// request is a command, a ping or a logout, and is accepted (RFC 7143, section 4.2).
pub fn one_local_disk()
    // No end fails.
    ensures well { (c : Opening) (events : List PairEvent) (w : World) (outcomes : List Done)
        → IsNormal c → RunsServed (new_pair c) events w outcomes
        → (w.target_fault ≡ None) × (w.initiator_fault ≡ None) }
    // The outcomes that were taken are, in their order, those of one local disk; that of the last
    // request may be still to come.
    ensures outcomes { (c : Opening) (events : List PairEvent) (w : World) (outcomes : List Done)
        → IsNormal c → RunsServed (new_pair c) events w outcomes → (later : List Done)
        × (length later ≤ 1) × (outcomes ++ later ≡ disk_outcomes c (requests_of events)) }
    // With nothing on its way no request is open,
    ensures idle { (c : Opening) (events : List PairEvent) (w : World) (outcomes : List Done)
        → IsNormal c → RunsServed (new_pair c) events w outcomes
        → w.to_target ≡ [] → w.to_initiator ≡ [] → w.initiator.machine.outstanding ≡ None }
    // each has its outcome, and the blocks are those that all of them leave,
    ensures whole { (c : Opening) (events : List PairEvent) (w : World) (outcomes : List Done)
        → IsNormal c → RunsServed (new_pair c) events w outcomes
        → w.to_target ≡ [] → w.to_initiator ≡ []
        → (outcomes ++ listed w.initiator.machine.done ≡ disk_outcomes c (requests_of events))
        × (disk_of w.blocks ≡ local_disk_after c (requests_of events)) }
    // and once the last outcome is taken both ends are in step, or have parted after a logout.
    ensures rests { (c : Opening) (events : List PairEvent) (w : World) (outcomes : List Done)
        → IsNormal c → RunsServed (new_pair c) events w outcomes
        → w.to_target ≡ [] → w.to_initiator ≡ []
        → AreAtEnd (requests_of events) (outcome_handed_out w.initiator.machine) w.target.machine }
{}

/// Every list of commands and pings can be served, if each is one that any target takes. Some
/// events hand them in, one after another, such that the run is served. It has then taken all their
/// outcomes on one local disk, with nothing on its way. So the premises of `one_local_disk` are met
/// (RFC 7143, section 4.2).
pub fn lists_are_served()
    ensures served { (c : Opening) (all : List Request) → IsNormal c
        → AllByRecursion IsAlwaysTaken all → SomeRunServes c all (disk_outcomes c all) }
    // And so can one that a logout ends.
    ensures ended { (c : Opening) (past : List Request) → IsNormal c
        → AllByRecursion IsAlwaysTaken past → let all = past ++ requests.Logout ∷ [] in
        SomeRunServes c all (disk_outcomes c all) }
{}

/// What is written is read. In some run that is served, a WRITE(10) and a READ(10) of the same
/// blocks are handed in. Both outcomes are GOOD, and the read has the bytes that were written
/// (SBC-3).
pub fn what_is_written_is_read()
    ensures read { (c : Opening) (write_cdb read_cdb bytes : List ℕ) → IsNormal c
        → NameSame c write_cdb read_cdb bytes → SomeRunServes c
        (requests.Out 0 write_cdb bytes ∷ requests.In 0 read_cdb (length bytes) ∷ [])
        (good_done [] ∷ good_done bytes ∷ []) }
    // These descriptor blocks name the first block of a disk that has one,
    ensures first { (c : Opening) (bytes : List ℕ) → 512 ≤ length c.blocks → length bytes ≡ 512
        → NameSame c first_written first_read bytes }
    // and ends of the standard preferences, with names that suit, are normal ones.
    ensures normal { (blocks : List ℕ) → IsNormal (standard_opening blocks) }
{}
