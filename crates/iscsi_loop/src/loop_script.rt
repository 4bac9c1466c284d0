//! A session of an initiator and a target over a socket, driven by a script. One file: both ends,
//! and the commands that drive them; more than half of it are the contracts.

ghost use Rattle.std.specs.Prelude.{◌≡◌, ◌<◌, ◌≤◌, ◌∷◌, [], ℕ, List, Option, IfOk, IfErr, OnOk};
ghost use Rattle.scsi_disk.specs.Disk.{most_blocks};
ghost use Rattle.std.specs.Io.KnownBytes.{Appends, Consumes, IsAtEnd};
ghost use Rattle.iscsi_initiator.specs.State.{new_session};
ghost use Rattle.iscsi_initiator.specs.Calls.{opening_initiator};
ghost use Rattle.iscsi_initiator.specs.declared.fault.InitiatorFault.TheVariants as faults;
ghost use Rattle.iscsi_initiator.specs.declared.request.Done.{Done};
ghost use Rattle.iscsi_initiator.specs.declared.request.Request.{Request};
ghost use Rattle.iscsi_serving.specs.declared.fault.ServeFault.TheVariants as serve;
ghost use Rattle.iscsi_loop.specs.Reports.{report};
ghost use Rattle.iscsi_loop.specs.Commands.{command_request};
ghost use Rattle.iscsi_loop.specs.Script.{IsScript};
ghost use Rattle.iscsi_loop.specs.inner.Script.{AreCommandsInRange, IsCommandInRange};
ghost use Rattle.iscsi_stream.specs.Normalising.{WroteFront};
ghost use Rattle.iscsi_loop.specs.Looping.{initiator_settings, LoopPost, ReadsScriptFirst};
ghost use Rattle.scsi_disk.specs.Sparse.{extents_disk};
ghost use Rattle.iscsi_loop.specs.LoopPairs.{IsFaithful, LoopsOnDisk};
ghost use Rattle.iscsi_loop.specs.inner.LoopPairs.{AreOneDisk, AreOpen, AreSomeDisk, GoOn, IsBlameless, PerformsOnDisk, WritesLine, WritesOnDisk, asked, ends_of, new_ends};
ghost use Rattle.iscsi_loop.specs.LoopSteps.{BlamesNoEnd};
ghost use Rattle.iscsi_loop.specs.inner.LoopSteps.{InitiatorContinues, CommandFails, IsSessionFault, ScriptRuns, ScriptStops, refusal_fault};

use crate::carrier::Carrier;
use crate::command::Command;
use crate::report::report;
use crate::script::read_script;
use crate::socket_pair::Wire;
use iscsi_initiator::{Config, Done, Initiator, InitiatorFault, SubmitFault};
use iscsi_login::{Auth, Offers, Phase, Preferences, Session, Stage};
use iscsi_options::LONGEST_PIECE;
use iscsi_pdu::LOGIN_SEGMENT;
use iscsi_serve::{TARGET_NAME, configuration};
use iscsi_serving::ServeFault;
use iscsi_stream::write_fully;
use iscsi_target::{FIRST_STAT_SN, Target};
use scsi_disk::{BlockStore, SparseStore};
use std::alloc::{AllocError, Global};
use std::io::{Read, Write};

/// The name of the initiator.
const INITIATOR_NAME: &[u8] = b"iqn.2026-01.example:host";
/// The initiator's part of the session's identifier (RFC 7143, section 11.12.5).
const ISID: [u8; 6] = [0x40, 0, 0, 1, 0, 0];
/// The CmdSN of the login and of the first request.
const FIRST_CMD_SN: u32 = 1;
/// How often one end answers the other before the connection counts as failed.
const TURNS: u32 = 16_777_216;

/// Logs an initiator in to a target with a disk of `n` blocks of 00, over a socket of this machine,
/// and does what a script says. What an end sends goes in pieces of at most `n` bytes, each read as
/// it is written. Writes a line for the login, and one for the outcome of each command, up to the
/// first logout. Without a logout the connection is closed at the end of the script.
///
/// Before any output it returns `Script` with the first line that is no command. If the script has
/// more than 1,048,576 bytes, the line is that of the first byte too many. It returns `Read` if a
/// read fails, or if 16,777,216 reads did not reach the end. `NoMemory` comes where memory runs
/// out, then or later. `Target` and `Initiator` are the first fault of an end. A refused request
/// and one without an outcome are `Initiator` with `Closed`: these ends have no cause for it.
/// `Network` comes where a socket fails, or the ends answered each other 16,777,216 times, and
/// `Write` where a line can't be written.
///
/// The sessions are those of RFC 7143, sections 4 to 11; the lines of a script and those that are
/// written are own rule.
pub fn run_loop<R: Read, W: Write>(
    rt: &HostRuntime,
    blocks: u64,
    piece: u32,
    r: &mut R,
    w: &mut W,
) -> Result<(), ServeFault>
    requires some { 0 < blocks }
    requires few { blocks ≤ most_blocks }
    requires moves { 0 < piece }
    requires short { piece ≤ 4096 }
    ensures loops { (script : List ℕ) × (written : List ℕ)
        × Consumes (R.remaining r.old) (R.remaining r.new) script
        × Appends (W.contents w.old) (W.contents w.new) written
        × LoopPost result script written × ReadsScriptFirst result written (R.remaining r.new) }
{
    run_over::<Wire, R, W>(rt, blocks, piece, r, w)
}

/// `run_loop` over any connection of this kind: the engine of both ends. It opens the connection
/// once the script is read, and closes it at the end.
pub fn run_over<C: Carrier, R: Read, W: Write>(
    rt: &HostRuntime,
    blocks: u64,
    piece: u32,
    r: &mut R,
    w: &mut W,
) -> Result<(), ServeFault>
    requires some { 0 < blocks }
    requires few { blocks ≤ most_blocks }
    requires moves { 0 < piece }
    requires short { piece ≤ 4096 }
    ensures loops { (script : List ℕ) × (written : List ℕ)
        × Consumes (R.remaining r.old) (R.remaining r.new) script
        × Appends (W.contents w.old) (W.contents w.new) written
        × LoopPost result script written × ReadsScriptFirst result written (R.remaining r.new) }
    // Over a connection that returns what was written to it, the lines are those of one local disk.
    ensures on_disk { IsFaithful C.carries → (script : List ℕ) × (written : List ℕ)
        × Consumes (R.remaining r.old) (R.remaining r.new) script
        × Appends (W.contents w.old) (W.contents w.new) written
        × LoopsOnDisk blocks result script written }
    // Over such a connection no fault is one of an end.
    ensures blameless { IsFaithful C.carries → IfErr result BlamesNoEnd }
{
    let commands = read_script(rt.alloc(), r)?;
    let mut ends = LoopbackSession::open(rt.alloc(), blocks, piece as usize)?;
    run_session::<C, W>(rt, &mut ends, commands, w)
}

// Runs a session that is not started, over a connection of its own.
fn run_session<C: Carrier, W: Write>(
    rt: &HostRuntime,
    ends: &mut LoopbackSession,
    commands: Vec<Command>,
    w: &mut W,
) -> Result<(), ServeFault>
    requires begins { ends.old.initiator ≡ opening_initiator initiator_settings }
    ensures loops { (script : List ℕ) (left : Option (List ℕ)) → IsScript script commands.items
        → IsAtEnd left → (written : List ℕ) × Appends (W.contents w.old) (W.contents w.new) written
        × LoopPost result script written × ReadsScriptFirst result written left }
    ensures on_disk { IsFaithful C.carries → (blocks : ℕ) (script : List ℕ)
        → ends_of ends.old.initiator ends.old.target (extents_disk ends.old.store) [] []
        ≡ new_ends blocks → IsScript script commands.items → (written : List ℕ)
        × Appends (W.contents w.old) (W.contents w.new) written
        × LoopsOnDisk blocks result script written }
    ensures blameless { IsFaithful C.carries → (blocks : ℕ)
        → ends_of ends.old.initiator ends.old.target (extents_disk ends.old.store) [] []
        ≡ new_ends blocks → AreCommandsInRange commands.items → IfErr result BlamesNoEnd }
{
    let mut carrier = C::open(rt)?;
    ends.log_in(&mut carrier)?;
    write_line(w, b"login\n")?;
    run_commands(ends, &mut carrier, commands, w)?;
    carrier.close()?;
    ends.finish()
}

// Does the commands up to the first logout, with a line for each.
fn run_commands<C: Carrier, W: Write>(
    ends: &mut LoopbackSession,
    carrier: &mut C,
    commands: Vec<Command>,
    w: &mut W,
) -> Result<(), ServeFault>
    requires begins { InitiatorContinues (new_session initiator_settings) [] []
        ends.old.initiator.machine }
    ensures runs { OnOk result (ScriptRuns commands.items (W.contents w.old) (W.contents w.new)) }
    ensures err { IfErr result (λ fault.
        ScriptStops fault commands.items (W.contents w.old) (W.contents w.new)) }
    ensures served { IsFaithful C.carries → (blocks : ℕ) → AreOneDisk blocks []
        (ends_of ends.old.initiator ends.old.target (extents_disk ends.old.store) [] [])
        → WritesOnDisk blocks commands.items result (W.contents w.old) (W.contents w.new) }
    ensures stands { IsFaithful C.carries → (blocks : ℕ) → AreOneDisk blocks []
        (ends_of ends.old.initiator ends.old.target (extents_disk ends.old.store) [] [])
        → OnOk result (AreSomeDisk blocks
        (ends_of ends.new.initiator ends.new.target (extents_disk ends.new.store) [] [])) }
    ensures blameless { IsFaithful C.carries → (blocks : ℕ) → AreOneDisk blocks []
        (ends_of ends.old.initiator ends.old.target (extents_disk ends.old.store) [] [])
        → AreCommandsInRange commands.items → IfErr result BlamesNoEnd }
{
    for command in commands {
        let is_logout = command.is_logout();
        run_command(ends, carrier, command, w)?;
        if is_logout {
            return Ok(());
        }
    }
    Ok(())
}

// Does a command, and writes the line of its outcome.
fn run_command<C: Carrier, W: Write>(
    ends: &mut LoopbackSession,
    carrier: &mut C,
    command: Command,
    w: &mut W,
) -> Result<(), ServeFault>
    ensures ok { OnOk result ((done : Done)
        × InitiatorContinues ends.old.initiator.machine (command_request command ∷ []) (done ∷ [])
        ends.new.initiator.machine
        × Appends (W.contents w.old) (W.contents w.new) (report done)) }
    ensures err { IfErr result (λ fault. CommandFails fault ends.old.initiator.machine command
        ends.new.initiator.machine (W.contents w.old) (W.contents w.new)) }
    ensures served { IsFaithful C.carries → (blocks : ℕ) (past : List Request)
        → AreOneDisk blocks past
        (ends_of ends.old.initiator ends.old.target (extents_disk ends.old.store) [] [])
        → WritesLine result (asked blocks past (command_request command))
        (ends_of ends.new.initiator ends.new.target (extents_disk ends.new.store) [] [])
        (W.contents w.old) (W.contents w.new) }
    ensures blameless { IsFaithful C.carries → (blocks : ℕ) (past : List Request)
        → AreOpen blocks past
        (ends_of ends.old.initiator ends.old.target (extents_disk ends.old.store) [] [])
        → IsCommandInRange command → IfErr result BlamesNoEnd }
{
    let alloc = ends.alloc;
    let done = ends.perform(carrier, command)?;
    write_line(w, report(alloc, &done)?.as_bytes())
}

// Writes a line.
fn write_line<W: Write>(w: &mut W, line: &[u8]) -> Result<(), ServeFault>
    ensures ok { OnOk result (Appends (W.contents w.old) (W.contents w.new) line.now) }
    ensures err { IfErr result (λ fault. (fault ≡ serve.Write)
        × WroteFront (W.contents w.old) (W.contents w.new) line.now) }
{
    match write_fully(w, line) {
        Ok(()) => Ok(()),
        Err(_) => Err(ServeFault::Write),
    }
}

/// Both ends of a session.
#[derive(Drop)]
struct LoopbackSession {
    alloc: Global,
    initiator: Initiator,
    target: Target,
    store: SparseStore,
    /// The most bytes of a piece, 1 to 4096.
    piece: usize,
    ghost moves: { 0 < piece },
    ghost short: { piece ≤ 4096 },
}

impl LoopbackSession {
    // Both ends of a session that is not started.
    fn open(alloc: Global, blocks: u64, piece: usize) -> Result<Box<LoopbackSession>, ServeFault>
        requires some { 0 < blocks }
        requires few { blocks ≤ most_blocks }
        requires moves { 0 < piece }
        requires short { piece ≤ 4096 }
        ensures opening { IfOk result (λ ends.
            ends.value.initiator ≡ opening_initiator initiator_settings) }
        ensures new { IfOk result (λ ends.
            ends_of ends.value.initiator ends.value.target (extents_disk ends.value.store) [] []
            ≡ new_ends blocks) }
        ensures blameless { IfErr result BlamesNoEnd }
        ensures err { IfErr result IsSessionFault }
    {
        // What may fail comes first, so that no end has to be let go.
        let initiator = initiator_configuration(alloc)?;
        let target = configuration(alloc)?;
        let ends = LoopbackSession {
            alloc,
            initiator: Initiator::new(alloc, initiator),
            target: Target::new(alloc, target, FIRST_STAT_SN),
            store: SparseStore::new(alloc, blocks),
            piece,
        };
        match Box::new(alloc, ends) {
            Ok(ends) => Ok(ends),
            Err(fault) => Err(AllocError::from(fault).into()),
        }
    }

    // Logs in.
    fn log_in<C: Carrier>(&mut self, carrier: &mut C) -> Result<(), ServeFault>
        ensures continues { OnOk result
            (InitiatorContinues self.old.initiator.machine [] [] self.new.initiator.machine) }
        ensures served { IsFaithful C.carries → (blocks : ℕ)
            → ends_of self.old.initiator self.old.target (extents_disk self.old.store) [] []
            ≡ new_ends blocks → OnOk result (AreOneDisk blocks []
            (ends_of self.new.initiator self.new.target (extents_disk self.new.store) [] [])) }
        ensures blameless { IsFaithful C.carries → (blocks : ℕ)
            → ends_of self.old.initiator self.old.target (extents_disk self.old.store) [] []
            ≡ new_ends blocks → IfErr result BlamesNoEnd }
        ensures err { IfErr result IsSessionFault }
    {
        let mut out = Vec::new(self.alloc);
        self.initiator.start(&mut out)?;
        self.settle(carrier, out)?;
        match self.initiator.phase() {
            Phase::Full => Ok(()),
            Phase::Login | Phase::Closed => Err(no_outcome()),
        }
    }

    // Hands in a command, and returns its outcome.
    fn perform<C: Carrier>(&mut self, carrier: &mut C, command: Command) -> Result<Done, ServeFault>
        ensures continues { IfOk result (λ done. InitiatorContinues self.old.initiator.machine
            (command_request command ∷ []) (done ∷ []) self.new.initiator.machine) }
        ensures served { IsFaithful C.carries → IfOk result (λ done. PerformsOnDisk
            (ends_of self.old.initiator self.old.target (extents_disk self.old.store) [] [])
            (command_request command) done
            (ends_of self.new.initiator self.new.target (extents_disk self.new.store) [] [])) }
        ensures blameless { IsFaithful C.carries → (blocks : ℕ) (past : List Request)
            → AreOpen blocks past
            (ends_of self.old.initiator self.old.target (extents_disk self.old.store) [] [])
            → IsCommandInRange command → IfErr result BlamesNoEnd }
        ensures err { IfErr result IsSessionFault }
    {
        let request = command.into_request(self.alloc)?;
        let mut out = Vec::new(self.alloc);
        match self.initiator.submit(request, &mut out) {
            Ok(()) => {}
            Err(refused) => return Err(refusal(refused.fault)),
        }
        self.settle(carrier, out)?;
        match self.initiator.outcome() {
            Some(done) => Ok(done),
            None => Err(no_outcome()),
        }
    }

    // Moves what the initiator sends to the target, and its answers back, until neither sends more.
    fn settle<C: Carrier>(&mut self, carrier: &mut C, requests: Vec<u8>) -> Result<(), ServeFault>
        ensures continues { OnOk result
            (InitiatorContinues self.old.initiator.machine [] [] self.new.initiator.machine) }
        ensures served { IsFaithful C.carries → OnOk result (GoOn
            (ends_of self.old.initiator self.old.target (extents_disk self.old.store) requests.items
            [])
            (ends_of self.new.initiator self.new.target (extents_disk self.new.store) [] [])) }
        ensures blameless { IsFaithful C.carries → IfErr result (IsBlameless
            (ends_of self.old.initiator self.old.target (extents_disk self.old.store) requests.items [])) }
        ensures err { IfErr result IsSessionFault }
    {
        let mut requests = requests;
        for _ in 0..TURNS {
            if requests.is_empty() {
                return Ok(());
            }
            let answers = self.feed_target(carrier, &requests)?;
            requests = self.feed_initiator(carrier, &answers)?;
        }
        Err(ServeFault::Network)
    }

    // Moves requests to the target, and returns its answers.
    fn feed_target<C: Carrier>(
        &mut self,
        carrier: &mut C,
        requests: &[u8],
    ) -> Result<Vec<u8>, ServeFault>
        ensures kept { self.new.initiator ≡ self.old.initiator }
        ensures served { IsFaithful C.carries → IfOk result (λ answers. GoOn
            (ends_of self.old.initiator self.old.target (extents_disk self.old.store) requests.now
            [])
            (ends_of self.new.initiator self.new.target (extents_disk self.new.store) []
            answers.items)) }
        ensures blameless { IsFaithful C.carries → IfErr result (IsBlameless
            (ends_of self.old.initiator self.old.target (extents_disk self.old.store) requests.now
            [])) }
        ensures err { IfErr result IsSessionFault }
    {
        let mut answers = Vec::new(self.alloc);
        let mut buffer = [0u8; LONGEST_PIECE as usize];
        let mut rest = requests;
        while !rest.is_empty() {
            let len = rest.len().min(self.piece);
            let read = &mut buffer[..len];
            carrier.to_target(&rest[..len], read)?;
            self.target.feed(read, &mut self.store, &mut answers)?;
            // Its contract says that these are the blocks of a disk, whatever was written.
            let _blocks = self.store.blocks();
            rest = &rest[len..];
        }
        Ok(answers)
    }

    // Moves answers to the initiator, and returns what it sends then.
    fn feed_initiator<C: Carrier>(
        &mut self,
        carrier: &mut C,
        answers: &[u8],
    ) -> Result<Vec<u8>, ServeFault>
        ensures continues { OnOk result
            (InitiatorContinues self.old.initiator.machine [] [] self.new.initiator.machine) }
        ensures served { IsFaithful C.carries → IfOk result (λ requests. GoOn
            (ends_of self.old.initiator self.old.target (extents_disk self.old.store) []
            answers.now)
            (ends_of self.new.initiator self.new.target (extents_disk self.new.store)
            requests.items [])) }
        ensures blameless { IsFaithful C.carries → IfErr result (IsBlameless
            (ends_of self.old.initiator self.old.target (extents_disk self.old.store) []
            answers.now)) }
        ensures err { IfErr result IsSessionFault }
    {
        let mut requests = Vec::new(self.alloc);
        let mut buffer = [0u8; LONGEST_PIECE as usize];
        let mut rest = answers;
        while !rest.is_empty() {
            let len = rest.len().min(self.piece);
            let read = &mut buffer[..len];
            carrier.to_initiator(&rest[..len], read)?;
            self.initiator.feed(read, &mut requests)?;
            rest = &rest[len..];
        }
        Ok(requests)
    }

    // Ends the target's stream, unless the session was closed before.
    fn finish(&mut self) -> Result<(), ServeFault>
        ensures blameless { IfErr result (IsBlameless
            (ends_of self.old.initiator self.old.target (extents_disk self.old.store) [] [])) }
        ensures err { IfErr result IsSessionFault }
    {
        if self.target.phase() != Phase::Closed {
            self.target.finish()?;
        }
        Ok(())
    }
}

// The fault of a request that is refused.
fn refusal(fault: SubmitFault) -> ServeFault
    ensures { result ≡ refusal_fault fault }
{
    match fault {
        SubmitFault::NoMemory => ServeFault::NoMemory,
        SubmitFault::Closed
        | SubmitFault::NotReady
        | SubmitFault::Busy
        | SubmitFault::Shut
        | SubmitFault::TooLong => no_outcome(),
    }
}

// The fault of a session that takes no request, or ends without an outcome.
fn no_outcome() -> ServeFault
    ensures { result ≡ serve.Initiator faults.Closed }
{
    ServeFault::Initiator(InitiatorFault::Closed)
}

// What the initiator is configured with. The only error is that memory ran out.
fn initiator_configuration(alloc: Global) -> Result<Config, AllocError>
    ensures settings { IfOk result (λ config. config ≡ initiator_settings) }
{
    let offers = Offers {
        initiator: INITIATOR_NAME,
        target: TARGET_NAME,
        session: Session::Normal,
        auth: Auth::None,
        prefs: Preferences::standard(),
    };
    // Names and numbers are in range, so only memory can run out.
    Config::new(
        alloc,
        offers,
        Stage::Security,
        ISID,
        FIRST_CMD_SN,
        LOGIN_SEGMENT,
    )
    .map_err(|_| AllocError)
}
