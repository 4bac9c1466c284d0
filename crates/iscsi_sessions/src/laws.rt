//! Laws of every interleaving of sessions: functions that do nothing, whose contracts are the
//! theorems.

ghost use Rattle.std.specs.Prelude.{Bool, ◌≡◌, ◌≢◌, ◌⊎◌, [], ◌<◌, ◌≤◌, ◌+◌, ◌^◌, ◌∷◌, ◌++◌, ℕ, false, true, List, None, OnOk, Option, Result, Some, length, map, take};
ghost use Rattle.std.specs.List.{AllByRecursion};
ghost use Rattle.scsi_disk.specs.declared.order.Order.{Order};
ghost use Rattle.scsi_disk.specs.declared.order.Plan.TheVariants.{Give, Take};
ghost use Rattle.scsi_disk.specs.Disk.{Disk, joined_blocks};
ghost use Rattle.scsi_disk.specs.Lasting.{SettledDisk, Within};
ghost use Rattle.scsi_disk.specs.Plan.{is_read, plan_of, named_transfer};
ghost use Rattle.scsi_disk.specs.Runs.{Supplied};
ghost use Rattle.iscsi_pdu.specs.declared.head.Head.TheVariants as heads;
ghost use Rattle.iscsi_pdu.specs.declared.head.login_request.LoginRequest.{LoginRequest};
ghost use Rattle.iscsi_stream.specs.Stream.{Message};
ghost use Rattle.iscsi_stream.specs.Canonical.{canon};
ghost use Rattle.iscsi_login.specs.Negotiation.{ArePreferencesInRange};
ghost use Rattle.iscsi_target_session.specs.Configured.{TargetSettings};
ghost use Rattle.iscsi_target.specs.Tiles.{IsModest, IsTiled, TilesDataIn, bytes_given, r2t_ranges, total_of};
ghost use Rattle.iscsi_target.specs.Machine.{target_step};
ghost use Rattle.iscsi_target.specs.State.{Execution, Machine, opening_machine};
ghost use Rattle.iscsi_target.specs.declared.fault.TargetFault.{TargetFault};
ghost use Rattle.iscsi_target.specs.Asking.{NoneAsks};
ghost use Rattle.iscsi_target.specs.Crash.{CrashesNext, IsBehindCommand};
ghost use Rattle.iscsi_target.specs.Feed.{TargetConnection, Store};
ghost use Rattle.iscsi_target.specs.Laws.{AreInOrder, TaggedOrder, CountOn, HasCmdSn, ExecutionsLead, cmd_sns, joined_execution, response_tags, stat_sns, orders_done, orders_asked};
ghost use Rattle.iscsi_sessions.specs.Slots.{SessionTable, Slot, has_cache_at, may_take_at, must_sync, slot_at, slot_waiting};
ghost use Rattle.iscsi_sessions.specs.Access.{IsLetIn};
ghost use Rattle.iscsi_sessions.specs.Turns.{SlotEvent, Takes, Turn, SlotEventsRun, Slots, SessionEvents, KeepsSlot, TakesTurn, answers_of, slot_events, executed_in, executed_of};
ghost use Rattle.iscsi_sessions.specs.Blocks.{ExactExecutionsLead, block_left};
ghost use Rattle.iscsi_sessions.specs.Flushes.{AreNextCommands, AreNoted, Change, IsOrdered, IsWrittenBy, IsWrittenIn, LeaveInTurn, CrashLeavesCommands, change, owed_behind};
ghost use Rattle.iscsi_sessions.specs.Bounds.{ExecutesFew, HoldsFew, IsNumbered, most_taken};
ghost use Rattle.iscsi_sessions.specs.OwnOrder.{executed_for, placed_in};
ghost use Rattle.iscsi_sessions.specs.Company.{Group, HaveCount, IsCalm, answers_in, answers_over, groups_in, messages_in};

use scsi_disk::BlockStore;

/// One disk of all sessions: whatever the order of their turns, the blocks are those that all
/// executed commands leave, one after another.
pub fn one_disk_of_all()
    // Over a store that may fail, each does what it does, or what it may do where the device fails.
    ensures may { (protected : Bool) (slots after : Slots) (store last : Store)
        (es : List SlotEvent)
        → SlotEventsRun protected slots store es after last
        → ExecutionsLead protected store.disk (executed_in es) last.disk }
    // Where no failure was counted, each does exactly what it does.
    ensures follows { (protected : Bool) (slots after : Slots)
        (store last : Store) (es : List SlotEvent)
        → SlotEventsRun protected slots store es after last → last.failures ≡ store.failures
        → ExactExecutionsLead protected store.disk (executed_in es) last.disk }
{}

/// What is read is what was written last. If no failure was counted, a READ that is done gives of
/// each block what the last write to the block, of whichever session, left. If there was no such
/// write, the READ gives what the block was at first. The blocks in the end are so too.
pub fn last_write_is_read()
    ensures read { (protected : Bool) (slots after : Slots) (store last : Store)
        (es : List SlotEvent)
        (past later : List Execution) (e : Execution) (length : ℕ)
        → SlotEventsRun protected slots store es after last → last.failures ≡ store.failures
        → executed_in es ≡ past ++ e ∷ later → is_read e.order.cdb ≡ true
        → plan_of e.order store.disk.count ≡ Give length
        → bytes_given protected e
        ≡ take length (joined_blocks (block_left protected store.disk past)
        (named_transfer e.order.cdb).first
        (named_transfer e.order.cdb).count) }
    ensures blocks { (protected : Bool) (slots after : Slots) (store last : Store)
        (es : List SlotEvent) (n : ℕ)
        → SlotEventsRun protected slots store es after last → last.failures ≡ store.failures
        → last.disk.block n ≡ block_left protected store.disk (executed_in es) n }
{}

/// What lasts over a disk with a write cache. A flush that was answered left a store of which a crash
/// leaves the blocks, and nothing else (`SessionTable::settle`, clause `lasts`). Whatever comes behind it, a
/// crash then leaves of each block what it had at the flush, or what a later command leaves of it.
pub fn flushed_lasts<S: BlockStore>()
    ensures since { (first last : S) (cs : List (Change S)) (n : ℕ) (bytes : List ℕ)
        → SettledDisk (S.disk first) (S.kept first)
        → LeaveInTurn S.protected (λ s. S.disk s) (λ s. S.kept s) first cs last
        → S.kept last n bytes
        → (bytes ≡ (S.disk first).block n) ⊎ IsWrittenIn S.protected (λ s. S.disk s) cs n bytes }
    // What a command leaves of a block is what it writes there, or what the block had before it.
    ensures behind { (protected : Bool) (disk : Disk) (orders : List Supplied) (n : ℕ)
        (bytes : List ℕ) → IsBehindCommand protected disk orders n bytes
        → (bytes ≡ disk.block n) ⊎ IsOrdered protected disk.count orders n bytes }
    // And the block had what it had at the flush, or what a command wrote that was executed since.
    ensures had { (protected : Bool) (slots after : Slots) (store last : Store)
        (es : List SlotEvent)
        (n : ℕ) → SlotEventsRun protected slots store es after last
        → (last.disk.block n ≡ store.disk.block n)
        ⊎ IsWrittenBy protected store.disk.count (executed_in es) n (last.disk.block n) }
    // A turn of a slot is such a change (`SessionTable::take`, clause `crash`), and so is a sync.
    ensures turn { (old : TargetConnection) (piece : List ℕ) (a b : S)
        → CrashesNext S.protected old piece (S.disk a) (S.disk b) (S.kept a) (S.kept b)
        → (orders : List Supplied) × AreNextCommands old piece (S.disk a).count orders
        × CrashLeavesCommands S.protected (λ s. S.disk s) (λ s. S.kept s) (change a orders b) }
    // Over a disk with a write cache a turn notes at its slot whether a command asks whose answer waits
    // there. Where one does, `SessionTable::settle` syncs the store first (`must_sync`).
    ensures noted { (protected : Bool) (slot : ℕ) (old new : SessionTable) (before after : Store)
        (result : Result ℕ TargetFault) (owed : List Execution)
        (t : TakesTurn protected slot old before result new after)
        → has_cache_at (slot_at old slot) ≡ true → AreNoted (slot_at old slot) owed
        → OnOk result (AreNoted (slot_at new slot)
        (owed_behind (slot_at old slot) owed (executed_of t.turn))) }
    // What waits is offered without a sync only where none of those commands asks. Without a write
    // cache it never is.
    ensures unsynced { (slot : Option Slot) (owed : List Execution)
        → AreNoted slot owed → must_sync slot ≡ false → NoneAsks owed }
    ensures plain { (slot : Option Slot) → has_cache_at slot ≡ false → must_sync slot ≡ true }
    ensures sync { (a b : S) → Within (S.kept a) (S.kept b)
        → CrashLeavesCommands S.protected (λ s. S.disk s) (λ s. S.kept s) (change a [] b) }
{}

/// Each session is its own: while one session has a slot, its turns are its own machine's, each
/// over the blocks that it met, whatever other sessions do between them.
pub fn each_its_own()
    ensures own { (protected : Bool) (slots after : Slots) (store last : Store)
        (es : List SlotEvent) (slot : ℕ)
        (s : Machine) → SlotEventsRun protected slots store es after last → slots slot ≡ Some s
        → KeepsSlot slot es
        → (end : Machine) × (after slot ≡ Some end)
        × SessionEvents protected s (slot_events slot es) end }
{}

/// The order of a session's commands in the one list of all is its own. What the list has of a slot
/// is what that slot's turns executed, one after another.
pub fn own_order()
    // The one list of what was executed, each with its slot.
    ensures all { (es : List SlotEvent) → map (λ p. p.1) (placed_in es) ≡ executed_in es }
    ensures turns { (es : List SlotEvent) (slot : ℕ)
        → executed_for slot (placed_in es) ≡ executed_in (slot_events slot es) }
    // Suppose that one session has the slot, no failure was counted and memory was there. Then the
    // commands that the list has of the slot are those of the session's own machine with its own
    // PDUs, pieces of data joined.
    ensures own { (protected : Bool) (slots after : Slots) (store last : Store)
        (es : List SlotEvent) (slot : ℕ)
        (s : Machine) → SlotEventsRun protected slots store es after last → slots slot ≡ Some s
        → KeepsSlot slot es
        → AllByRecursion IsCalm (slot_events slot es) → (disk : Disk)
        → map joined_execution (executed_for slot (placed_in es)) ≡ map joined_execution
        (answers_over protected s disk (groups_in (slot_events slot es))).executed }
    // They are the commands that it accepted, in their order, and then come those that wait.
    ensures accepted { (protected : Bool) (slots after : Slots) (store last : Store)
        (es : List SlotEvent) (slot n : ℕ)
        (settings : TargetSettings) → SlotEventsRun protected slots store es after last
        → slots slot ≡ Some (opening_machine settings n) → KeepsSlot slot es
        → AllByRecursion IsCalm (slot_events slot es) → (disk : Disk) → (more : List TaggedOrder)
        × (orders_asked settings.extras.unit (answers_over protected (opening_machine settings n) disk
        (groups_in (slot_events slot es))).accepted
        ≡ orders_done (executed_for slot (placed_in es)) ++ more) }
{}

/// Little is there of a session at a time, whatever came to it in company, and whatever the store
/// did. At most nine tasks are there between two PDUs, eight of the window and an immediate one.
/// For a PDU at most nine commands are executed.
///
/// So a slot keeps the data of nine writes, and less than 65,536 bytes of answers with the answers
/// to one PDU. Beside these it keeps what its framer holds of one PDU and one read.
pub fn few_at_a_time()
    ensures tasks { (protected : Bool) (settings : TargetSettings) (n : ℕ)
        (end : Machine) (es : List SlotEvent)
        → SessionEvents protected (opening_machine settings n) es end → AllByRecursion IsNumbered es
        → length end.tasks ≤ 9 }
    ensures executed { (protected : Bool) (settings : TargetSettings) (n : ℕ)
        (end : Machine) (es : List SlotEvent)
        → SessionEvents protected (opening_machine settings n) es end → AllByRecursion IsNumbered es
        → AllByRecursion ExecutesFew es }
    // Where no failure was counted, a write that waits for data has at most 4,194,304 bytes of them, or
    // those of an UNMAP's list.
    ensures held { (protected : Bool) (settings : TargetSettings) (n count : ℕ)
        (disk : Disk) (gs : List Group)
        → HaveCount count gs
        → AllByRecursion HoldsFew (answers_over protected (opening_machine settings n)
        disk gs).machine.tasks }
    // A write takes, and a READ gives, at most 4,194,304 bytes; an UNMAP takes its list.
    ensures write { (order : Order) (blocks n : ℕ) → plan_of order blocks ≡ Take n
        → n ≤ most_taken order.deed }
    ensures read { (order : Order) (blocks n : ℕ) → is_read order.cdb ≡ true
        → plan_of order blocks ≡ Give n → n ≤ 4_194_304 }
    // What waits to be written at a slot behind a turn: less than 65,536 bytes, and the answers of
    // that turn. The turn is of one PDU at most if there is no fault.
    ensures waits { (protected : Bool) (slot : ℕ) (old new : SessionTable) (before after : Store)
        (result : Result ℕ TargetFault) (t : TakesTurn protected slot old before result new after)
        → may_take_at (slot_at old slot) ≡ true
        → length (slot_waiting (slot_at new slot)) ≤ 65_535 + length (canon (answers_of t.turn)) }
{}

/// One session in company: what the laws of `iscsi_target` say of a session that has the disk for
/// itself holds of one between whose PDUs others change it. They speak of `answers_over`, where
/// each group of PDUs meets a disk of its own.
pub fn in_company()
    // This is what a session of a table answers, where no failure was counted and memory was there.
    ensures session { (protected : Bool) (s end : Machine) (es : List SlotEvent)
        → SessionEvents protected s es end
        → AllByRecursion IsCalm es
        → (disk : Disk) → answers_in es ≡ (answers_over protected s disk (groups_in es)).answers }
    // The commands that were accepted are those that were executed, in their order, and those that
    // wait.
    ensures order { (protected : Bool) (settings : TargetSettings) (n : ℕ) (disk : Disk)
        (gs : List Group)
        → AreInOrder (answers_over protected (opening_machine settings n) disk gs) }
    ensures answered { (protected : Bool) (s : Machine) (disk : Disk) (gs : List Group)
        → response_tags (answers_over protected s disk gs).answers
        ≡ map (λ e. e.initiator_task_tag) (answers_over protected s disk gs).executed }
    // CmdSN and StatSN count on.
    ensures commands { (protected : Bool) (settings : TargetSettings) (n : ℕ)
        (disk : Disk) (gs : List Group)
        (first : Message) (ms : List Message) (request : LoginRequest)
        → messages_in gs ≡ first ∷ ms → first.head ≡ heads.LoginRequest request
        → AllByRecursion HasCmdSn (first ∷ ms)
        → CountOn request.cmd_sn (cmd_sns (answers_over protected
        (opening_machine settings n) disk gs).accepted) }
    ensures status { (protected : Bool) (s : Machine) (disk : Disk) (gs : List Group)
        → s.session.stat_sn < 2 ^ 32
        → CountOn s.session.stat_sn (stat_sns (answers_over protected s disk gs).answers) }
    // Data-In tile what commands give, the data of writes tile what they take, and R2Ts ask for at
    // most a burst inside the transfer, whatever disk the next PDU meets.
    ensures data_in { (protected : Bool) (settings : TargetSettings) (n : ℕ)
        (disk now : Disk) (gs : List Group)
        (m : Message) → ArePreferencesInRange settings.preferences
        → TilesDataIn protected (target_step protected
        (answers_over protected (opening_machine settings n) disk gs).machine now m) }
    ensures writes { (protected : Bool) (settings : TargetSettings) (n : ℕ)
        (disk now : Disk) (gs : List Group)
        (m : Message) → HaveCount now.count gs → AllByRecursion IsTiled
        (target_step protected (answers_over protected (opening_machine settings n) disk
        gs).machine now m).executed }
    ensures modest { (protected : Bool) (settings : TargetSettings) (n : ℕ)
        (disk now : Disk) (gs : List Group)
        (m : Message) → HaveCount now.count gs
        → let t = target_step protected (answers_over protected (opening_machine settings n) disk
        gs).machine
        now m in AllByRecursion
        (IsModest t.machine.session.held (total_of t.machine.tasks)) (r2t_ranges t.answers) }
{}

/// Who has a command executed, whatever sessions do beside each other and whatever the store does: a
/// session that came before, with settings of its own. Where these demand CHAP, a text of its login
/// had the right response; where they list names, its initiator has one of them.
pub fn only_admitted()
    ensures { (protected : Bool) (slots after : Slots) (store last : Store)
        (past later : List SlotEvent) (t : Turn)
        → SlotEventsRun protected slots store (past ++ Takes t ∷ later) after last
        → ((k : ℕ) → slots k ≡ None) → executed_of t ≢ []
        → (settings : TargetSettings) × IsLetIn protected past t settings }
{}
