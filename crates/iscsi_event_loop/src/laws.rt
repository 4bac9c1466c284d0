//! Laws of what a service did from free slots on: functions that do nothing, whose contracts are the
//! theorems.

ghost use Rattle.std.specs.Prelude.{Bool, ◌≡◌, ◌≢◌, [], ◌∷◌, ◌++◌, ℕ, List};
ghost use Rattle.iscsi_target_session.specs.Configured.{TargetSettings};
ghost use Rattle.iscsi_target.specs.Feed.{Store};
ghost use Rattle.iscsi_target.specs.Laws.{ExecutionsLead};
ghost use Rattle.iscsi_target.specs.State.{Machine, opening_machine};
ghost use Rattle.iscsi_sessions.specs.Blocks.{ExactExecutionsLead, block_left};
ghost use Rattle.iscsi_sessions.specs.Turns.{Comes, SlotEvent, SessionEvents, KeepsSlot, Takes, Turn, slot_events, executed_in, executed_of};
ghost use Rattle.iscsi_sessions.specs.Access.{IsLetIn};
ghost use Rattle.iscsi_serving.specs.Access.{Door, IsAdmitted};
ghost use Rattle.iscsi_event_loop.specs.Running.{Served};

/// One disk of all sessions of a service: the blocks are those that all executed commands leave, one
/// after another.
pub fn one_disk_of_all()
    // Over a store that may fail, each does what it does, or what it may do where the device fails.
    ensures may { (protected : Bool) (count : ℕ) (door : Door)
        (before after : Store) (s : Served protected count door before after)
        → ExecutionsLead protected before.disk (executed_in s.events) after.disk }
    // Where no failure was counted, each does exactly what it does.
    ensures follows { (protected : Bool) (count : ℕ) (door : Door)
        (before after : Store) (s : Served protected count door before after)
        → after.failures ≡ before.failures
        → ExactExecutionsLead protected before.disk (executed_in s.events) after.disk }
    // Then each block is what the last write to it left, of whichever session, or what it was.
    ensures blocks { (protected : Bool) (count : ℕ) (door : Door)
        (before after : Store) (s : Served protected count door before after)
        (n : ℕ) → after.failures ≡ before.failures
        → after.disk.block n ≡ block_left protected before.disk (executed_in s.events) n }
{}

/// Each session of a service is its own. From the event by which it comes, and while it has its slot,
/// its turns are those of its own machine, over the blocks that each turn met.
pub fn each_its_own()
    ensures own { (protected : Bool) (count : ℕ) (door : Door)
        (before after : Store) (s : Served protected count door before after)
        (past es later : List SlotEvent) (slot : ℕ) (settings : TargetSettings)
        → s.events ≡ past ++ (Comes slot settings ∷ (es ++ later)) → KeepsSlot slot es
        → (end : Machine) × SessionEvents protected (opening_machine settings 1)
        (slot_events slot es) end }
{}

/// Who has a command executed at a service: a session that came before, with settings that its door
/// gives. So where there are secrets, a text of its login had the right response for one of them, to a
/// challenge of 16 bytes; and where names are listed, its initiator has one of them.
pub fn only_admitted()
    ensures { (protected : Bool) (count : ℕ) (door : Door)
        (before after : Store) (s : Served protected count door before after)
        (past later : List SlotEvent) (t : Turn) → s.events ≡ past ++ Takes t ∷ later
        → executed_of t ≢ []
        → (settings : TargetSettings) × IsAdmitted door settings × IsLetIn protected past t settings }
{}
