//! Laws of reservations: functions that do nothing, whose contracts are the theorems.

ghost use Rattle.std.specs.Prelude.{◌≡◌, ◌∷◌, [], Some, false, true};
ghost use Rattle.scsi_reservations.specs.Worked.{course, may_behind, cluster, fencing, leaving, sharing};
ghost use Rattle.scsi_reservations.specs.Reservations.{Reservations, Nexus, Holding, is_listed, is_nexus, may, reserve, nothing_changed, IsSettled, IsNoRegister};
ghost use Rattle.scsi_reservations.specs.declared.ask.Ask.{Ask};
ghost use Rattle.scsi_reservations.specs.declared.ask.Verdict.TheVariants as verdicts;
ghost use Rattle.scsi_reservations.specs.declared.refusal.Refusal.TheVariants as refusals;
ghost use Rattle.scsi_reservations.specs.declared.kind.Access.TheVariants as access;

/// Fencing: while there is a reservation, a port that is not registered changes no block, whatever the
/// type is.
pub fn fenced()
    ensures changes { (r : Reservations) (h : Holding) (n : Nexus)
        → IsSettled r → r.held ≡ Some h → is_listed r.registrations n ≡ false
        → may r n access.Changes ≡ false }
{}

/// A port that is not registered changes nothing of the reservations but by registering.
pub fn only_by_registering()
    ensures stays { (r : Reservations) (n : Nexus) (ask : Ask)
        → is_listed r.registrations n ≡ false → IsNoRegister ask.action
        → reserve r n ask ≡ nothing_changed r verdicts.Conflict }
{}

/// No other port registers it.
pub fn others_stay_out()
    ensures others { (r : Reservations) (n m : Nexus) (ask : Ask)
        → is_nexus m n ≡ false → is_listed r.registrations n ≡ false
        → is_listed (reserve r m ask).reservations.registrations n ≡ false }
{}

/// The holder of a reservation is always registered.
pub fn settled_always()
    ensures always { (r : Reservations) (n : Nexus) (ask : Ask)
        → IsSettled r → IsSettled (reserve r n ask).reservations }
{}

/// Worked actions: a cluster, a fenced node, a holder that leaves, a reservation of all.
pub fn worked()
    ensures cluster { (course cluster).verdicts ≡ verdicts.Good ∷ verdicts.Good ∷ verdicts.Good ∷ [] }
    ensures nodes { (may_behind cluster 1 ≡ (true, true)) × (may_behind cluster 2 ≡ (true, true)) }
    ensures stranger { may_behind cluster 3 ≡ (true, false) }
    ensures fencing { (course fencing).verdicts ≡ verdicts.Good ∷ verdicts.Good ∷ verdicts.Good
        ∷ verdicts.Good ∷ verdicts.Conflict ∷ verdicts.Conflict ∷ [] }
    ensures fenced { (may_behind fencing 1 ≡ (true, false)) × (may_behind fencing 2 ≡ (true, true)) }
    ensures leaving { (course leaving).verdicts ≡ verdicts.Good ∷ verdicts.Good ∷ verdicts.Good
        ∷ verdicts.Conflict ∷ verdicts.Good ∷ [] }
    ensures left { may_behind leaving 3 ≡ (true, true) }
    ensures sharing { (course sharing).verdicts ≡ verdicts.Good ∷ verdicts.Good ∷ verdicts.Good
        ∷ verdicts.Good ∷ (verdicts.Refused refusals.InvalidRelease) ∷ verdicts.Good ∷ [] }
{}
