//! Laws of the target machine: functions that do nothing, whose contracts are the theorems. They
//! speak of the definitions in `specs`, which the contracts of the working functions cite too. One
//! file, since it has nothing but contracts.

ghost use Rattle.std.specs.Prelude.{Bool, ◌≡◌, ◌≢◌, ◌≤◌, ◌<◌, ◌+◌, ◌%◌, ◌^◌, ◌++◌, ◌∷◌, [], ℕ, false, true, List, Result, Some, length, map};
ghost use Rattle.std.specs.List.{AllByRecursion};
ghost use Rattle.scsi_disk.specs.Disk.{Disk};
ghost use Rattle.scsi_disk.specs.Runs.{disk_after};
ghost use Rattle.iscsi_text.specs.Key.{is_among};
ghost use Rattle.iscsi_pdu.specs.declared.head.Head.TheVariants as heads;
ghost use Rattle.iscsi_pdu.specs.declared.head.login_request.LoginRequest.{LoginRequest};
ghost use Rattle.iscsi_pdu.specs.declared.head.login_response.LoginResponse.{LoginResponse};
ghost use Rattle.iscsi_text.specs.Text.{Pairs};
ghost use Rattle.iscsi_target_session.specs.Login.{login_response_message};
ghost use Rattle.iscsi_stream.specs.Stream.{Message, StreamMeans, SplitsStream, longest_segment};
ghost use Rattle.iscsi_pdu.specs.Meaning.{AreBytes};
ghost use Rattle.iscsi_stream.specs.Canonical.{canon};
ghost use Rattle.iscsi_stream.specs.Framing.{HasTaken};
ghost use Rattle.iscsi_login.specs.declared.phase.Phase.{Phase};
ghost use Rattle.iscsi_login.specs.Negotiation.{ArePreferencesInRange};
ghost use Rattle.iscsi_login.specs.Held.{IsHeld};
ghost use Rattle.iscsi_access.specs.Chap.{Chap};
ghost use Rattle.iscsi_target.specs.declared.fault.TargetFault.{TargetFault};
ghost use Rattle.iscsi_target_session.specs.Configured.{TargetSettings};
ghost use Rattle.iscsi_target_session.specs.Session.{target_limit, Session};
ghost use Rattle.iscsi_target.specs.State.{Execution, Machine, TargetStep, closed_machine, opening_machine, unchanged, max_cmd_sn, waiting_tasks};
ghost use Rattle.iscsi_target.specs.State.{writes_joined};
ghost use Rattle.iscsi_target.specs.Execution.{Device};
ghost use Rattle.iscsi_target.specs.Machine.{is_machine_closed, target_step, step_on, answers, then_stepped, done_first, done_in_turn, MayStep, MayAnswer};
ghost use Rattle.iscsi_target.specs.Access.{HasResponded};
ghost use Rattle.iscsi_target.specs.Queue.{IsNotBefore, IsQueue};
ghost use Rattle.iscsi_target.specs.declared.tasks.Task.{Task};
ghost use Rattle.iscsi_login.specs.declared.phase.Phase.TheVariants.{Login, Full, Closed};
ghost use Rattle.iscsi_login.specs.declared.stage.Stage.TheVariants as stages;
ghost use Rattle.iscsi_target.specs.Feed.{TargetsAlike, TargetConnection, TargetFeedPost, CallsAlike, FeedsAllPieces, GoesWell, TargetReachesOrClosed, TargetReaches, SameSession, Store, StoreAndOutputReached, beginning, opening_target, scene, stream_of};
ghost use Rattle.iscsi_target.specs.Tiles.{TilesDataIn, AreShortDataIn, IsTiled, IsModest, total_of, r2t_ranges, r2ts_answered};
ghost use Rattle.iscsi_target.specs.Sessions.{LoginIsAnswered, LoginLeads, WriteIsAnswered};
ghost use Rattle.iscsi_target.specs.Laws.{BeginsAs, CountOn, stat_sns, cmd_sns, HasCmdSn, supplied, due_for, told_in, ExecutionsLead, orders_done, response_tags, AreInOrder, IsOutside, joined_stepped};

/// Worked sessions: a login, where it leads, and a write, to the last byte. Others are computed
/// where this is proved.
pub fn worked_sessions()
    ensures login { LoginIsAnswered }
    ensures leads { LoginLeads }
    ensures write { WriteIsAnswered }
{}

/// One disk: it is what the commands that were executed make of it, one after another. They are
/// those whose response went out, in the order in which they were accepted. No accepted command is
/// left out but those that wait, which come behind, or at which the session was closed.
pub fn one_disk()
    ensures fold { (protected : Bool) (s : Machine) (disk : Disk) (ms : List Message)
        → (answers protected s disk ms).disk ≡ disk_after protected
        (map supplied (answers protected s disk ms).executed) disk }
    // Over a store that may fail, each does what it does, or what it may do where the device fails.
    ensures may { (protected : Bool) (s : Machine) (disk : Disk) (before after : ℕ)
        (ms : List Message) (r : TargetStep)
        → MayAnswer protected s disk before ms r after
        → ExecutionsLead protected disk r.executed r.disk }
    ensures answered { (protected : Bool) (s : Machine) (disk : Disk) (ms : List Message)
        → response_tags (answers protected s disk ms).answers
        ≡ map (λ task. task.0) (orders_done (answers protected s disk ms).executed) }
    // A response says of its command what came of it: status, residual and sense data.
    ensures told { (protected : Bool) (s : Machine) (disk : Disk) (ms : List Message)
        → told_in (answers protected s disk ms).answers
        ≡ map (due_for protected) (answers protected s disk ms).executed }
    ensures order { (protected : Bool) (settings : TargetSettings) (n : ℕ)
        (disk : Disk) (ms : List Message)
        → AreInOrder (answers protected (opening_machine settings n) disk ms) }
{}

/// A store that refuses writes keeps its blocks, whatever comes, also where its device fails.
pub fn protected_keeps()
    ensures answered { (s : Machine) (disk : Disk) (before after : ℕ) (ms : List Message)
        (r : TargetStep) → MayAnswer true s disk before ms r after → r.disk ≡ disk }
    ensures executed { (disk last : Disk) (es : List Execution) → ExecutionsLead true disk es last
        → last ≡ disk }
{}

/// Tasks in their turn: what some of the first answered and executed, where memory ran out behind
/// them, comes first of what all do.
pub fn tasks_in_turn()
    ensures front { (k : ℕ) (device : Device) (s : Session) (disk : Disk) (tasks : List Task)
        → BeginsAs (done_first k device s disk tasks) (done_in_turn device s disk tasks) }
{}

/// The queue: between two PDUs at most eight tasks take a place of the window, and the first alone
/// may be an immediate one, which takes none. The first is a write that waits for data, if there is
/// a task, and no R2T was sent for one behind it. MaxCmdSN does not go back while a session is in
/// full feature phase.
pub fn queue()
    ensures tasks { (protected : Bool) (settings : TargetSettings) (n : ℕ)
        (disk : Disk) (ms : List Message)
        → AllByRecursion HasCmdSn ms
        → IsQueue (answers protected (opening_machine settings n) disk ms).machine.tasks }
    ensures rises { (protected : Bool) (s : Machine) (disk : Disk) (m : Message)
        → s.session.exp_cmd_sn < 2 ^ 32
        → waiting_tasks s.tasks ≤ 8 → s.session.phase ≡ Full
        → is_machine_closed (target_step protected s disk m).machine ≡ false
        → IsNotBefore (max_cmd_sn s) (max_cmd_sn (target_step protected s disk m).machine) }
{}

/// Once a login is complete, its stage and the values that it agreed on stay, whatever comes, also
/// where the session is closed.
pub fn held_stays()
    ensures stays { (protected : Bool) (settings : TargetSettings) (n : ℕ) (disk : Disk)
        (ms more : List Message)
        → (answers protected (opening_machine settings n) disk ms).machine.session.stage
        ≡ stages.Full
        → ((answers protected (opening_machine settings n) disk (ms ++ more)).machine.session.stage
        ≡ stages.Full)
        × ((answers protected (opening_machine settings n) disk (ms ++ more)).machine.session.held
        ≡ (answers protected (opening_machine settings n) disk ms).machine.session.held) }
    // So does a fault that closes it.
    ensures closed { (s : Machine) → ((closed_machine s).session.stage ≡ s.session.stage)
        × ((closed_machine s).session.held ≡ s.session.held) }
{}

/// Who may log in: where names are listed, a session in full feature phase is that of an initiator
/// which gave one of them, and so is one in which a command was executed. Any other initiator has
/// nothing executed, and leaves the blocks as they are. The store may fail.
pub fn allowed_only()
    ensures full { (protected : Bool) (settings : TargetSettings)
        (names : List (List ℕ)) (n : ℕ) (disk : Disk) (before after : ℕ)
        (ms : List Message) (r : TargetStep) → settings.extras.names ≡ Some names
        → MayAnswer protected (opening_machine settings n) disk before ms r after
        → r.machine.session.phase ≡ Full
        → is_among names r.machine.session.initiator_name ≡ true }
    ensures executed { (protected : Bool) (settings : TargetSettings)
        (names : List (List ℕ)) (n : ℕ) (disk : Disk) (before after : ℕ)
        (ms : List Message) (r : TargetStep) → settings.extras.names ≡ Some names
        → MayAnswer protected (opening_machine settings n) disk before ms r after
        → r.executed ≢ []
        → is_among names r.machine.session.initiator_name ≡ true }
    // A login that is refused leaves no name in the session: an empty one.
    ensures others { (protected : Bool) (settings : TargetSettings)
        (names : List (List ℕ)) (n : ℕ) (disk : Disk) (before after : ℕ)
        (ms : List Message) (r : TargetStep) → settings.extras.names ≡ Some names
        → MayAnswer protected (opening_machine settings n) disk before ms r after
        → is_among names r.machine.session.initiator_name ≡ false
        → (r.executed ≡ []) × (r.disk ≡ disk) }
{}

/// Who may log in where CHAP is demanded: a session in full feature phase has had a login text with
/// the name of an account that its initiator may use, and the response of this account's secret to
/// the challenge of this login: MD5 of the identifier, the secret and the challenge (RFC 7143,
/// section 12.1.3; RFC 1994, section 4.1). So no other message leads there, forged, repeated or cut.
/// The store may fail.
pub fn full_if_answered()
    ensures answered { (protected : Bool) (settings : TargetSettings) (n : ℕ) (disk : Disk)
        (before after : ℕ) (ms : List Message) (r : TargetStep) (c : Chap)
        → settings.extras.chap ≡ Some c
        → MayAnswer protected (opening_machine settings n) disk before ms r after
        → r.machine.session.stage ≡ stages.Full
        → HasResponded protected (opening_machine settings n) disk c
        r.machine.session.initiator_name ms }
    // So has a session in which any order was executed: before, no block is read or written.
    ensures executed { (protected : Bool) (settings : TargetSettings) (n : ℕ) (disk : Disk)
        (before after : ℕ) (ms : List Message) (r : TargetStep) (c : Chap)
        → settings.extras.chap ≡ Some c
        → MayAnswer protected (opening_machine settings n) disk before ms r after
        → r.executed ≢ []
        → HasResponded protected (opening_machine settings n) disk c
        r.machine.session.initiator_name ms }
{}

/// A login that is refused ends its session: where a message before full feature phase is answered by
/// a Login Response of another class than 0, the session is closed, and no block is read or written
/// (RFC 7143, section 11.13.5).
pub fn refused_login()
    ensures refused { (protected : Bool) (s : Machine) (disk : Disk) (m : Message)
        (h : LoginResponse) (text : Pairs) → s.session.phase ≡ Login
        → let r = target_step protected s disk m in r.answers ≡ login_response_message h text ∷ []
        → h.status_class ≢ 0
        → (r.machine.session.phase ≡ Closed) × (r.executed ≡ []) × (r.disk ≡ disk) }
{}

/// The order of acceptance is that of CmdSN: the requests that were accepted and aren't immediate
/// have numbers one after another, from that of the first login request on.
pub fn command_numbers()
    ensures count_on { (protected : Bool) (settings : TargetSettings) (n : ℕ)
        (disk : Disk) (first : Message)
        (ms : List Message) (request : LoginRequest) → first.head ≡ heads.LoginRequest request
        → AllByRecursion HasCmdSn (first ∷ ms)
        → CountOn request.cmd_sn
        (cmd_sns (answers protected (opening_machine settings n) disk (first ∷ ms)).accepted) }
    // In a stream of bytes each CmdSN is a number of 32 bits.
    ensures streams { (stream : List ℕ) (ms : List Message) → AreBytes stream
        → StreamMeans stream ms → AllByRecursion HasCmdSn ms }
{}

/// Status numbers: the answers that carry StatSN and advance it have numbers one after another,
/// round the circle of 2^32.
pub fn status_numbers()
    ensures count_on { (protected : Bool) (s : Machine) (disk : Disk) (ms : List Message)
        → s.session.stat_sn < 2 ^ 32
        → CountOn s.session.stat_sn (stat_sns (answers protected s disk ms).answers) }
    ensures next { (protected : Bool) (s : Machine) (disk : Disk) (ms : List Message)
        → s.session.stat_sn < 2 ^ 32
        → (answers protected s disk ms).machine.session.stat_sn
        ≡ (s.session.stat_sn + length (stat_sns (answers protected s disk ms).answers)) % 2 ^ 32 }
{}

/// Tiling: whatever came before, the Data-In that a message leads to are those of the commands that
/// are executed, one after another, and tile the data of each. Also whatever came before, the pieces
/// of a write that is executed tile its transfer.
pub fn tiling()
    ensures data_in { (protected : Bool) (settings : TargetSettings) (n : ℕ) (disk : Disk)
        (ms : List Message) (m : Message)
        → ArePreferencesInRange settings.preferences
        → let r = answers protected (opening_machine settings n) disk ms in TilesDataIn protected
        (target_step protected r.machine r.disk m) }
    // Where a target is told how long a Data-In is at most, none has more bytes.
    ensures short { (protected : Bool) (s : Machine) (disk : Disk) (ms : List Message)
        (limit : ℕ) → s.session.settings.extras.longest_data_in ≡ Some limit → 512 ≤ limit
        → AreShortDataIn limit (answers protected s disk ms).answers }
    // So it is over a store that may fail.
    ensures may_short { (protected : Bool) (s : Machine) (disk : Disk) (before after : ℕ)
        (ms : List Message) (r : TargetStep)
        (limit : ℕ) → s.session.settings.extras.longest_data_in ≡ Some limit → 512 ≤ limit
        → MayAnswer protected s disk before ms r after → AreShortDataIn limit r.answers }
    ensures writes { (protected : Bool) (settings : TargetSettings) (n : ℕ) (disk : Disk)
        (ms : List Message) (m : Message)
        → let r = answers protected (opening_machine settings n) disk ms in
        AllByRecursion IsTiled (target_step protected r.machine r.disk m).executed }
{}

/// Ready-to-transfer bounds: whatever came before, an R2T asks for at most a burst, and for nothing
/// past the transfer of the write that is the first task. Also whatever came before, at most one R2T
/// is unanswered.
pub fn ready_to_transfer_bounds()
    ensures modest { (protected : Bool) (settings : TargetSettings) (n : ℕ) (disk : Disk)
        (ms : List Message) (m : Message)
        → let r = answers protected (opening_machine settings n) disk ms in let t = target_step
        protected r.machine r.disk m in
        AllByRecursion (IsModest t.machine.session.held (total_of t.machine.tasks)) (r2t_ranges t.answers) }
    ensures one { (protected : Bool) (settings : TargetSettings) (n : ℕ) (disk : Disk)
        (ms : List Message)
        → length (r2t_ranges (answers protected (opening_machine settings n) disk ms).answers)
        ≤ r2ts_answered protected (opening_machine settings n) disk ms + 1 }
{}

/// Silence outside the window: whatever came before, a request that isn't immediate and comes
/// outside the window changes nothing and has no answer.
pub fn silence_outside_the_window()
    ensures silent { (protected : Bool) (settings : TargetSettings) (n : ℕ) (disk : Disk)
        (ms : List Message) (m : Message)
        → let r = answers protected (opening_machine settings n) disk ms in IsOutside r.machine m
        → target_step protected r.machine r.disk m ≡ unchanged r.machine r.disk }
{}

/// What is held stays in range, and a segment of the length that the target declared is one that
/// its framer takes.
pub fn held_in_range()
    ensures held { (protected : Bool) (settings : TargetSettings) (n : ℕ)
        (disk : Disk) (ms : List Message)
        → ArePreferencesInRange settings.preferences
        → IsHeld (answers protected (opening_machine settings n) disk ms).machine.session.held }
    ensures limit { (protected : Bool) (settings : TargetSettings) (n : ℕ)
        (disk : Disk) (ms : List Message)
        → (answers protected (opening_machine settings n) disk
        ms).machine.session.held.target_max_recv ≤ target_limit settings }
{}

/// Messages in two parts are answered as at once, also over a store that may fail.
pub fn in_two_parts()
    ensures together { (protected : Bool) (s : Machine) (disk : Disk) (ms more : List Message)
        → answers protected s disk (ms ++ more) ≡ then_stepped (answers protected s disk ms)
        (answers protected (answers protected s disk ms).machine
        (answers protected s disk ms).disk more) }
    ensures may { (protected : Bool) (s : Machine) (disk : Disk) (before now after : ℕ)
        (ms more : List Message)
        (a b : TargetStep) → MayAnswer protected s disk before ms a now
        → MayAnswer protected a.machine a.disk now more b after
        → MayAnswer protected s disk before (ms ++ more) (then_stepped a b) after }
{}

/// Where one piece of a write ended and the next began makes no difference, whatever the store
/// does.
pub fn pieces_joined()
    ensures same { (device : Device) (s : Machine) (disk : Disk) (m : Message)
        → joined_stepped (step_on device (writes_joined s) disk m)
        ≡ joined_stepped (step_on device s disk m) }
    ensures may { (protected : Bool) (s : Machine) (disk : Disk) (before after : ℕ)
        (m : Message) (a : TargetStep)
        → MayStep protected (writes_joined s) disk before m a after
        → (b : TargetStep) × MayStep protected s disk before m b after
        × (joined_stepped a ≡ joined_stepped b) }
{}

/// Two streams of one meaning get the same answers, and so do a stream and its canonical form.
pub fn one_meaning_one_answer()
    ensures streams { (protected : Bool) (settings : TargetSettings) (n : ℕ) (disk : Disk)
        (s t : List ℕ)
        (ms ns : List Message) → AreBytes s → AreBytes t → StreamMeans s ms
        → StreamMeans t ns → canon ms ≡ canon ns
        → answers protected (opening_machine settings n) disk ms
        ≡ answers protected (opening_machine settings n) disk ns }
    ensures canonical { (protected : Bool) (settings : TargetSettings) (n : ℕ)
        (disk : Disk) (stream : List ℕ)
        (ms ns : List Message) → AreBytes stream → StreamMeans stream ms → StreamMeans (canon ms) ns
        → answers protected (opening_machine settings n) disk ns
        ≡ answers protected (opening_machine settings n) disk ms }
{}

/// Cuts make no difference, whatever pieces a stream of the profile comes in. What is written, the
/// blocks and the session are those that its messages lead to, also if the session is closed before
/// the end.
pub fn any_pieces()
    ensures meets { (protected : Bool) (settings : TargetSettings) (n : ℕ) (store after : Store)
        (pieces : List (List ℕ))
        (target : TargetConnection) (written : List ℕ) (ms : List Message)
        → FeedsAllPieces protected (scene (opening_target settings n) store []) pieces
        (scene target after written)
        → StreamMeans (stream_of pieces) ms
        → TargetReaches protected (beginning settings n store.disk) ms target after.disk written }
    // Of any stream, what is written and the blocks are those of its longest prefix in the profile.
    ensures writes { (protected : Bool) (settings : TargetSettings) (n : ℕ) (store after : Store)
        (pieces : List (List ℕ)) (target : TargetConnection) (written : List ℕ) (ms : List Message)
        (given rest : List ℕ) → ArePreferencesInRange settings.preferences
        → FeedsAllPieces protected (scene (opening_target settings n) store []) pieces
        (scene target after written)
        → SplitsStream longest_segment (stream_of pieces) ms given rest
        → StoreAndOutputReached protected (beginning settings n store.disk) ms after.disk written }
    // The session is where that prefix leads to, or was closed there by what follows it.
    ensures holds { (protected : Bool) (settings : TargetSettings) (n : ℕ) (store after : Store)
        (pieces : List (List ℕ)) (target : TargetConnection) (written : List ℕ) (ms : List Message)
        (given rest : List ℕ) → ArePreferencesInRange settings.preferences
        → FeedsAllPieces protected (scene (opening_target settings n) store []) pieces
        (scene target after written)
        → SplitsStream longest_segment (stream_of pieces) ms given rest
        → TargetReachesOrClosed protected (beginning settings n store.disk) ms rest target.machine }
    // So it is the same however the stream is cut.
    ensures alike { (protected : Bool) (settings : TargetSettings) (n : ℕ)
        (store first second : Store)
        (pieces others : List (List ℕ)) (a b : TargetConnection) (written rewritten : List ℕ)
        (ms : List Message) (given rest : List ℕ) → ArePreferencesInRange settings.preferences
        → SplitsStream longest_segment (stream_of pieces) ms given rest
        → stream_of others ≡ stream_of pieces
        → FeedsAllPieces protected (scene (opening_target settings n) store []) pieces
        (scene a first written)
        → FeedsAllPieces protected (scene (opening_target settings n) store []) others
        (scene b second rewritten)
        → (rewritten ≡ written) × (second.disk ≡ first.disk) × SameSession a.machine b.machine }
{}

/// A target writes the same bytes for a stream and for its canonical form, in whatever pieces they
/// come, and holds the same blocks, values, stage and phase afterwards.
pub fn canonical_form()
    ensures same { (protected : Bool) (settings : TargetSettings) (n : ℕ)
        (store first second : Store)
        (pieces others : List (List ℕ)) (a b : TargetConnection) (written rewritten : List ℕ)
        (ms : List Message) → AreBytes (stream_of pieces) → StreamMeans (stream_of pieces) ms
        → stream_of others ≡ canon ms
        → FeedsAllPieces protected (scene (opening_target settings n) store []) pieces
        (scene a first written)
        → FeedsAllPieces protected (scene (opening_target settings n) store []) others
        (scene b second rewritten)
        → (rewritten ≡ written) × (second.disk ≡ first.disk) × (b.machine ≡ a.machine) }
{}

/// A call has one outcome: if memory is there and the device doesn't fail, what a piece leads to is
/// the same each time. This also holds if the piece breaks off within a PDU.
pub fn one_outcome()
    ensures alike { (protected : Bool) (stream piece output written rewritten : List
        ℕ) (ms : List Message)
        (old same a b : TargetConnection) (before store first second : Store)
        (result other : Result Phase TargetFault) → (is_machine_closed old.machine ≡ false → HasTaken stream ms old.framing)
        → TargetsAlike old same → store.disk ≡ before.disk
        → TargetFeedPost protected (scene old before output) piece result (scene a first written)
        → GoesWell result before first
        → TargetFeedPost protected (scene same store output) piece other (scene b second rewritten)
        → GoesWell other store second
        → CallsAlike result other (scene a first written) (scene b second rewritten) }
{}
