//! A target's session over a stream. One file, since the calls share the steps by which a piece is
//! taken.

ghost use Rattle.std.specs.Prelude.{◌≡◌, ◌⊎◌, ◌++◌, ℕ, List, false, true, IfOk, IfErr, OnOk};
ghost use Rattle.iscsi_stream.specs.Framing.{is_ready};
ghost use Rattle.iscsi_target_session.specs.Session.{target_limit};
ghost use Rattle.iscsi_target.specs.Machine.{is_machine_closed};
ghost use Rattle.iscsi_target.specs.Feed.{scene, beginning, opening_target, FeedsFirstBytes, FeedNextFails, TargetFeedPost, FeedNextPost, TargetFinishPost, HasAnswered};
ghost use Rattle.iscsi_target_session.specs.Configured.{TargetSettings};
ghost use Rattle.scsi_disk.specs.Disk.{Disk};
ghost use Rattle.scsi_disk.specs.Lasting.{LastsOnceSynced};
ghost use Rattle.iscsi_target.specs.Asking.{NotesAsking, SomeNextAsks, has_cache};
ghost use Rattle.iscsi_target.specs.inner.Asking.{NoneNextAsks};
ghost use Rattle.iscsi_target.specs.Crash.{CrashesFed, CrashesNext};
ghost use Rattle.iscsi_target.specs.Advances.{store_of};
ghost use Rattle.iscsi_target.specs.inner.Inside.{TakesOnePdu, FeedOneFails};

use crate::fault::TargetFault;
use crate::intake::Intake;
use crate::machine::Machine;
use iscsi_login::{Params, Phase, Session as SessionType, Stage};
use iscsi_pdu::LOGIN_SEGMENT;
use iscsi_stream::Framer;
use iscsi_target_session::Config;
use scsi_disk::BlockStore;
use std::alloc::Global;
use std::marker::Model;

/// The StatSN of the first answer of a session of the programs.
pub const FIRST_STAT_SN: u32 = 1;

/// A target's session: it takes the bytes of an initiator and appends its answers.
///
/// | Phase | What holds |
/// |---|---|
/// | `Login` | Login Requests are answered or refused; another PDU closes the session |
/// | `Full` | requests are answered, commands executed on the store, in their order; behind a write that takes its data up to eight wait |
/// | `Closed` | each call returns `Closed` |
#[derive(Drop)]
pub struct Target {
    intake: Intake,
}

impl Model for Target {
    ghost use Rattle.std.specs.Prelude.{◌≡◌, false};
    ghost use Rattle.iscsi_stream.specs.Framing.{is_ready};
    ghost use Rattle.iscsi_target_session.specs.Session.{target_limit};
    ghost use Rattle.iscsi_target.specs.Feed.{TargetConnection};

    ghost Value = { TargetConnection };

    ghost view = { λ t. t.intake };

    ghost invariant = { λ t. (t.intake.framing.limit
        ≡ target_limit t.intake.machine.session.settings)
        × (is_ready t.intake.framing ≡ false) };
}

impl Target {
    /// A session in which nothing came, whose first answer has this StatSN. It takes no memory.
    pub fn new(alloc: Global, config: Config, first_statsn: u32) -> Target
        ensures opening { result ≡ opening_target config first_statsn }
    {
        let limit = config.preferences().max_recv.max(LOGIN_SEGMENT);
        let machine = Machine::new(alloc, config, first_statsn);
        Target {
            intake: Intake::new(machine, Framer::new(alloc, limit)),
        }
    }

    /// Takes a piece of the stream, and appends the answers to the PDUs that it completes. Says in
    /// which phase the session is then.
    ///
    /// A login that is refused and a logout return `Closed`, and the rest of the piece is dropped.
    /// After a fault the session is closed. `out` has the whole answers to the tasks that were
    /// handled before, and a Reject if a rule was broken in full feature phase. The task at which
    /// memory ran out wrote nothing and changed no block, and none behind it was handled. A closed
    /// session returns `Closed` and takes nothing (RFC 7143, sections 6 and 11; the rules and their
    /// order are own).
    pub fn feed<S: BlockStore>(
        &mut self,
        piece: &[u8],
        store: &mut S,
        out: &mut Vec<u8>,
    ) -> Result<Phase, TargetFault>
        ensures fed { TargetFeedPost S.protected
            (scene self.old (store_of (S.disk store.old) (S.failures store.old)) out.old.items)
            piece.now result
            (scene self.new (store_of (S.disk store.new) (S.failures store.new)) out.new.items) }
        // Whatever pieces a stream comes in, it has the answers to its PDUs.
        ensures stream { (settings : TargetSettings) (n : ℕ) (disk : Disk) (stream : List ℕ)
            → S.failures store.new ≡ S.failures store.old → is_machine_closed self.new.machine
            ≡ false
            → HasAnswered S.protected (beginning settings n disk) stream self.old (S.disk store.old)
            out.old.items
            → HasAnswered S.protected (beginning settings n disk) (stream ++ piece.now) self.new
            (S.disk store.new) out.new.items }
        // Once the store is synced, a crash leaves the blocks that the answered commands led to, and no
        // others.
        ensures lasts { S.failures store.new ≡ 0
            → LastsOnceSynced (S.synced store.new) (S.disk store.new) (S.kept store.new) }
        // Come what may, a crash leaves each block as before, or as a command of a PDU leaves it.
        ensures crash { CrashesFed S.protected self.old
            (store_of (S.disk store.old) (S.failures store.old))
            piece.now (store_of (S.disk store.new) (S.failures store.new))
            (S.kept store.old) (S.kept store.new) }
    {
        if self.intake.is_closed() {
            return Err(TargetFault::Closed);
        }
        feed_all(&mut self.intake, piece, store, out)
    }

    /// Takes bytes of a piece up to the end of one PDU, and answers that PDU. Returns how many bytes
    /// it took and in which phase the session is then. This is `feed`, one PDU at a time, for a
    /// caller that writes the answers before it goes on. A piece that completes no PDU is taken
    /// whole. Faults and what they leave are those of `feed` with the piece.
    pub fn feed_next<S: BlockStore>(
        &mut self,
        piece: &[u8],
        store: &mut S,
        out: &mut Vec<u8>,
    ) -> Result<(usize, Phase), TargetFault>
        ensures fed { FeedNextPost S.protected
            (scene self.old (store_of (S.disk store.old) (S.failures store.old)) out.old.items)
            piece.now result
            (scene self.new (store_of (S.disk store.new) (S.failures store.new)) out.new.items) }
        // Once the store is synced, a crash leaves the blocks that the answered commands led to, and no
        // others.
        ensures lasts { S.failures store.new ≡ 0
            → LastsOnceSynced (S.synced store.new) (S.disk store.new) (S.kept store.new) }
        // Come what may, a crash leaves each block as before, or as a command of the PDU does.
        ensures crash { CrashesNext S.protected self.old piece.now
            (S.disk store.old) (S.disk store.new)
            (S.kept store.old) (S.kept store.new) }
    {
        let mut asks = false;
        self.feed_asking(piece, store, out, &mut asks)
    }

    /// Does what `feed_next` does. Over a disk with a write cache it notes, too, whether a command asks
    /// that what was written lasts before it is answered: a SYNCHRONIZE CACHE, or a READ or a WRITE
    /// with the bit FUA (SBC-3, section 4.15). Then `asks` is set, and the store is to be synced before
    /// the answers leave. Over another disk, and where no command asks, `asks` stays as it is.
    ///
    /// It is also set for a command that waits behind a write, or waits for its data; so it may be set
    /// at calls before that one which executes the command.
    pub fn feed_asking<S: BlockStore>(
        &mut self,
        piece: &[u8],
        store: &mut S,
        out: &mut Vec<u8>,
        asks: &mut bool,
    ) -> Result<(usize, Phase), TargetFault>
        ensures fed { FeedNextPost S.protected
            (scene self.old (store_of (S.disk store.old) (S.failures store.old)) out.old.items)
            piece.now result
            (scene self.new (store_of (S.disk store.new) (S.failures store.new)) out.new.items) }
        ensures lasts { S.failures store.new ≡ 0
            → LastsOnceSynced (S.synced store.new) (S.disk store.new) (S.kept store.new) }
        ensures crash { CrashesNext S.protected self.old piece.now
            (S.disk store.old) (S.disk store.new)
            (S.kept store.old) (S.kept store.new) }
        // Where it is not noted that a command asks, none of those that were executed does.
        ensures asks { NotesAsking S.protected
            (scene self.old (store_of (S.disk store.old) (S.failures store.old)) out.old.items)
            piece.now result
            (scene self.new (store_of (S.disk store.new) (S.failures store.new)) out.new.items)
            asks.old asks.new }
        // It is noted only where one asks that may be executed for the PDU.
        ensures only { asks.new ≡ true → (asks.old ≡ true)
            ⊎ SomeNextAsks self.old.machine self.old.framing piece.now }
        // Over a disk without a write cache nothing is noted.
        ensures plain { has_cache self.old.machine ≡ false → asks.new ≡ asks.old }
    {
        if self.intake.is_closed() {
            return Err(TargetFault::Closed);
        }
        feed_once(&mut self.intake, piece, store, out, asks)
    }

    /// Whether the disk has a write cache.
    pub fn has_cache(&self) -> bool
        ensures cache { result ≡ has_cache self.now.machine }
    {
        self.intake.machine().has_cache()
    }

    /// What the session holds of its login (RFC 7143, section 13).
    pub fn params(&self) -> &Params
        ensures held { result.now ≡ self.now.machine.session.held }
    {
        self.intake.machine().session().held()
    }

    /// What the session is doing.
    pub fn phase(&self) -> Phase
        ensures phase { result ≡ self.now.machine.session.phase }
    {
        self.intake.phase()
    }

    /// The initiator's name, as the first text of the login gave it; empty before. With the ISID it
    /// says which port of which initiator the session is with (RFC 7143, sections 4.1 and 13.5).
    pub fn initiator_name(&self) -> &[u8]
        ensures name { result.now ≡ self.now.machine.session.initiator_name }
    {
        self.intake.machine().session().initiator_name()
    }

    /// The CmdSN that the next numbered request is to have (ExpCmdSN; RFC 7143, section 4.2.2.1). It
    /// is 0 before a login, and once the session is closed.
    pub fn expected_command(&self) -> u32
        ensures number { result ≡ self.now.machine.session.exp_cmd_sn }
    {
        self.intake.machine().expected_command()
    }

    /// The ISID of the first Login Request; zero before (RFC 7143, section 11.12.5).
    pub fn isid(&self) -> [u8; 6]
        ensures isid { result ≡ self.now.machine.session.isid }
    {
        self.intake.machine().session().isid()
    }

    /// Whether the session is normal, as it is until the first text of the login says otherwise, or
    /// of discovery (RFC 7143, section 13.21).
    pub fn session_type(&self) -> SessionType
        ensures session_type { result ≡ self.now.machine.session.session_type }
    {
        self.intake.machine().session().session_type()
    }

    /// Where the login is: security at first, then the stage of the first request that isn't
    /// refused by its head, then as answers move it. A closed session keeps it (RFC 7143, section
    /// 6.3).
    pub fn stage(&self) -> Stage
        ensures stage { result ≡ self.now.machine.session.stage }
    {
        self.intake.machine().session().stage()
    }

    /// Ends the stream. Returns `Stream` with `Truncated` where it ends within a PDU, which closes
    /// the session, and `Closed` where it was closed before.
    pub fn finish(&mut self) -> Result<(), TargetFault>
        ensures finishes { TargetFinishPost self.old result self.new }
    {
        if self.intake.is_closed() {
            return Err(TargetFault::Closed);
        }
        match self.intake.finish() {
            Ok(()) => Ok(()),
            Err(fault) => Err(TargetFault::Stream(fault)),
        }
    }
}

// Takes a piece of the stream in a session that isn't closed.
fn feed_all<S: BlockStore>(
    intake: &mut Intake,
    piece: &[u8],
    store: &mut S,
    out: &mut Vec<u8>,
) -> Result<Phase, TargetFault>
    requires limit { intake.old.framing.limit ≡ target_limit intake.old.machine.session.settings }
    requires unready { is_ready intake.old.framing ≡ false }
    requires live { is_machine_closed intake.old.machine ≡ false }
    ensures fed { FeedsFirstBytes S.protected (scene intake.old
        (store_of (S.disk store.old) (S.failures store.old)) out.old.items) piece.now result
        (scene intake.new
        (store_of (S.disk store.new) (S.failures store.new)) out.new.items) }
    ensures limit { intake.new.framing.limit ≡ target_limit intake.new.machine.session.settings }
    ensures unready { is_ready intake.new.framing ≡ false }
    ensures crash { CrashesFed S.protected intake.old
        (store_of (S.disk store.old) (S.failures store.old)) piece.now
        (store_of (S.disk store.new) (S.failures store.new)) (S.kept store.old) (S.kept store.new) }
{
    let mut rest = piece;
    let mut asks = false;
    while !rest.is_empty() {
        let (taken, broken) = feed_one(intake, rest, store, out, &mut asks)?;
        rest = &rest[taken..];
        let phase = intake.phase();
        if let Some(rule) = broken {
            return Err(TargetFault::Protocol(rule));
        }
        if intake.is_closed() {
            return Ok(phase);
        }
    }
    Ok(intake.phase())
}

// Takes bytes of a piece up to the end of one PDU in a session that isn't closed, and answers it.
fn feed_once<S: BlockStore>(
    intake: &mut Intake,
    piece: &[u8],
    store: &mut S,
    out: &mut Vec<u8>,
    asks: &mut bool,
) -> Result<(usize, Phase), TargetFault>
    requires limit { intake.old.framing.limit ≡ target_limit intake.old.machine.session.settings }
    requires unready { is_ready intake.old.framing ≡ false }
    requires live { is_machine_closed intake.old.machine ≡ false }
    ensures fed { FeedNextFails S.protected (scene intake.old
        (store_of (S.disk store.old) (S.failures store.old)) out.old.items) piece.now result
        (scene intake.new
        (store_of (S.disk store.new) (S.failures store.new)) out.new.items) }
    ensures limit { intake.new.framing.limit ≡ target_limit intake.new.machine.session.settings }
    ensures unready { is_ready intake.new.framing ≡ false }
    ensures crash { CrashesNext S.protected intake.old
        piece.now (S.disk store.old)
        (S.disk store.new) (S.kept store.old) (S.kept store.new) }
    ensures asks { NotesAsking S.protected (scene intake.old
        (store_of (S.disk store.old) (S.failures store.old)) out.old.items) piece.now result
        (scene intake.new
        (store_of (S.disk store.new) (S.failures store.new)) out.new.items) asks.old asks.new }
    ensures only { asks.new ≡ true
        → (asks.old ≡ true) ⊎ SomeNextAsks intake.old.machine intake.old.framing piece.now }
    ensures plain { has_cache intake.old.machine ≡ false → asks.new ≡ asks.old }
{
    let (taken, broken) = feed_one(intake, piece, store, out, asks)?;
    let phase = intake.phase();
    match broken {
        Some(rule) => Err(TargetFault::Protocol(rule)),
        None => Ok((taken, phase)),
    }
}

// Takes bytes up to the end of a PDU, and answers it if it is whole. Says how many bytes, and which
// rule was broken. A fault closes the session.
fn feed_one<S: BlockStore>(
    intake: &mut Intake,
    piece: &[u8],
    store: &mut S,
    out: &mut Vec<u8>,
    asks: &mut bool,
) -> Result<(usize, Option<u8>), TargetFault>
    requires limit { intake.old.framing.limit ≡ target_limit intake.old.machine.session.settings }
    requires unready { is_ready intake.old.framing ≡ false }
    requires live { is_machine_closed intake.old.machine ≡ false }
    ensures ok { IfOk result (λ done. TakesOnePdu S.protected
        (scene intake.old
        (store_of (S.disk store.old) (S.failures store.old)) out.old.items) piece.now done.0 done.1
        (scene intake.new
        (store_of (S.disk store.new) (S.failures store.new)) out.new.items)) }
    ensures err { IfErr result (λ fault. FeedOneFails S.protected
        (scene intake.old
        (store_of (S.disk store.old) (S.failures store.old)) out.old.items) piece.now fault
        (scene intake.new
        (store_of (S.disk store.new) (S.failures store.new)) out.new.items)) }
    ensures limit { intake.new.framing.limit ≡ target_limit intake.new.machine.session.settings }
    ensures unready { is_ready intake.new.framing ≡ false }
    ensures crash { CrashesNext S.protected intake.old
        piece.now (S.disk store.old)
        (S.disk store.new) (S.kept store.old) (S.kept store.new) }
    ensures noted { OnOk result (has_cache intake.old.machine ≡ true → asks.new ≡ false → asks.old ≡ false) }
    ensures none { IfOk result (λ done. has_cache intake.old.machine ≡ true → asks.new ≡ false
        → NoneNextAsks intake.old.machine intake.old.framing piece.now done.0) }
    ensures only { asks.new ≡ true
        → (asks.old ≡ true) ⊎ SomeNextAsks intake.old.machine intake.old.framing piece.now }
    ensures plain { has_cache intake.old.machine ≡ false → asks.new ≡ asks.old }
{
    let taken = intake.take_bytes(piece)?;
    intake.note_asking(asks);
    let broken = intake.answer_ready(store, out)?;
    Ok((taken, broken))
}
