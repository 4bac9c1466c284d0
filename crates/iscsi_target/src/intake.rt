//! A session and the stream that it takes. One file, since the calls share the steps by which bytes
//! are taken.

ghost use Rattle.std.specs.Prelude.{◌≡◌, ◌⊎◌, [], Option, Some, None, false, true, IfOk, IfErr, IfSome, IfNone, OnOk, OnErr};
ghost use Rattle.iscsi_stream.specs.Framing.{FramerTakes, is_ready, stopped, FinishFails};
ghost use Rattle.iscsi_stream.specs.Headers.{TakesHeader};
ghost use Rattle.iscsi_target_session.specs.Session.{target_limit};
ghost use Rattle.iscsi_target.specs.State.{closed_machine, writes_joined};
ghost use Rattle.iscsi_target.specs.Machine.{is_machine_closed};
ghost use Rattle.iscsi_target.specs.Feed.{scene};
ghost use Rattle.iscsi_target.specs.Asking.{SomeReadyAsks, has_cache};
ghost use Rattle.iscsi_target.specs.inner.Asking.{NoneReadyAsks};
ghost use Rattle.iscsi_target.specs.inner.Crash.{CrashesReady};
ghost use Rattle.iscsi_target.specs.inner.Arrival.{ArrivesForWrite, IsSegmentThere, connected};
ghost use Rattle.iscsi_target.specs.Advances.{store_of};
ghost use Rattle.iscsi_target.specs.inner.Inside.{target_connection, target_stream_fault, AnswersReady, IsAnswered, TargetShutsReady, TargetRestFails};

use crate::fault::TargetFault;
use crate::incoming::Incoming;
use crate::machine::Machine;
use iscsi_login::Phase;
use iscsi_pdu::Head;
use iscsi_stream::{Framer, StreamFault};
use iscsi_target_session::Received;
use scsi_disk::BlockStore;
use std::alloc::AllocError;
use std::marker::Model;

/// A session and the stream that it takes. A PDU is gathered by the framer; but the segment of a
/// Data-Out that is due goes to the open write as it comes, and stays there. Its contracts see the
/// write in its place, without those bytes, and the bytes with the framer.
#[derive(Drop)]
pub struct Intake {
    machine: Machine,
    framer: Framer,
    incoming: Option<Incoming>,
}

impl Model for Intake {
    ghost use Rattle.iscsi_target.specs.Feed.{TargetConnection};
    ghost use Rattle.iscsi_target.specs.inner.Arrival.{MayArrive, connected};

    ghost Value = { TargetConnection };

    ghost view = { λ t. connected t.machine t.framer t.incoming };

    ghost invariant = { λ t. MayArrive t.machine t.framer t.incoming };
}

impl Intake {
    /// A session and its stream, of which no Data-Out is begun.
    pub fn new(machine: Machine, framer: Framer) -> Intake
        ensures { result ≡ target_connection machine framer }
    {
        Intake {
            machine,
            framer,
            incoming: None,
        }
    }

    /// The session, with its tasks but for a write that takes a Data-Out.
    pub fn machine(&self) -> &Machine
        ensures { result.now.session ≡ self.now.machine.session }
    {
        &self.machine
    }

    /// What the session is doing.
    pub fn phase(&self) -> Phase
        ensures phase { result ≡ self.now.machine.session.phase }
        // The bytes of each write stand as one piece.
        ensures joined { writes_joined self.now.machine ≡ self.now.machine }
    {
        match &self.incoming {
            Some(incoming) => {
                // Its contract says that the bytes of the write stand as one piece.
                let _head = incoming.head();
                self.machine.phase()
            }
            None => self.machine.phase(),
        }
    }

    /// Whether the session is over.
    pub fn is_closed(&self) -> bool
        ensures { result ≡ is_machine_closed self.now.machine }
    {
        self.machine.is_closed()
    }

    /// Takes bytes up to the end of a PDU. A fault closes the session.
    pub fn take_bytes(&mut self, piece: &[u8]) -> Result<usize, TargetFault>
        ensures ok { IfOk result (λ n. FramerTakes self.old.framing piece.now n self.new.framing) }
        ensures kept { OnOk result (self.new.machine ≡ self.old.machine) }
        ensures err { IfErr result (TargetRestFails self.old.framing piece.now) }
        ensures shut { OnErr result (self.new.machine ≡ closed_machine self.old.machine) }
        ensures stopped { OnErr result (self.new.framing ≡ stopped self.old.framing) }
    {
        if let Some(incoming) = &mut self.incoming {
            return Ok(incoming.fill(piece));
        }
        let taken = take_header(&mut self.machine, &mut self.framer, piece)?;
        if let Some(incoming) = expect_data(&mut self.machine, &self.framer) {
            let mut incoming = incoming;
            let more = incoming.fill(&piece[taken..]);
            self.incoming = Some(incoming);
            return Ok(taken + more);
        }
        let more = take_rest(&mut self.machine, &mut self.framer, &piece[taken..])?;
        Ok(taken + more)
    }

    /// Notes whether a command that may be executed for the PDU that is ready asks that what was
    /// written lasts, over a disk with a write cache.
    pub fn note_asking(&self, asks: &mut bool)
        ensures noted { has_cache self.now.machine ≡ true → asks.new ≡ false → asks.old ≡ false }
        ensures none { has_cache self.now.machine ≡ true → asks.new ≡ false
            → NoneReadyAsks self.now.machine self.now.framing }
        ensures only { asks.new ≡ true
            → (asks.old ≡ true) ⊎ SomeReadyAsks self.now.machine self.now.framing }
        ensures plain { has_cache self.now.machine ≡ false → asks.new ≡ asks.old }
    {
        match &self.incoming {
            Some(incoming) => note_arrived(&self.machine, &self.framer, incoming, asks),
            None => note_framed(&self.machine, &self.framer, asks),
        }
    }

    /// Answers the PDU that is ready, if one is, and frees the framer for the next one. Returns the
    /// rule that it broke, if it broke one. Being out of memory closes the session.
    pub fn answer_ready<S: BlockStore>(
        &mut self,
        store: &mut S,
        out: &mut Vec<u8>,
    ) -> Result<Option<u8>, AllocError>
        requires limit { self.old.framing.limit ≡ target_limit self.old.machine.session.settings }
        requires live { is_machine_closed self.old.machine ≡ false }
        ensures ok { IfOk result (λ rule. AnswersReady S.protected (scene self.old
            (store_of (S.disk store.old) (S.failures store.old)) out.old.items) rule (scene self.new
            (store_of (S.disk store.new) (S.failures store.new)) out.new.items)) }
        ensures err { OnErr result (TargetShutsReady S.protected (scene self.old
            (store_of (S.disk store.old) (S.failures store.old)) out.old.items) (scene self.new
            (store_of (S.disk store.new) (S.failures store.new)) out.new.items)) }
        ensures crash { CrashesReady S.protected self.old (S.disk store.old)
            (S.disk store.new) (S.kept store.old) (S.kept store.new) }
    {
        match self.incoming.take() {
            Some(incoming) => {
                if !incoming.is_there() {
                    self.incoming = Some(incoming);
                    return Ok(None);
                }
                answer_arrived(&mut self.machine, &mut self.framer, incoming, store, out)
            }
            None => answer_framed(&mut self.machine, &mut self.framer, store, out),
        }
    }

    /// Ends the stream. Where it ends within a PDU the session is closed.
    pub fn finish(&mut self) -> Result<(), StreamFault>
        requires unready { is_ready self.old.framing ≡ false }
        ensures ok { OnOk result (self.old.framing.held ≡ []) }
        ensures kept { OnOk result (self.new ≡ self.old) }
        ensures err { IfErr result (FinishFails self.old.framing) }
        ensures shut { OnErr result (self.new.machine ≡ closed_machine self.old.machine) }
        ensures stopped { OnErr result (self.new.framing ≡ stopped self.old.framing) }
    {
        match self.framer.finish() {
            Ok(()) => Ok(()),
            Err(fault) => {
                self.incoming = None;
                self.machine.close();
                Err(fault)
            }
        }
    }
}

// Takes bytes up to the end of a header. A fault closes the session.
fn take_header(
    machine: &mut Machine,
    framer: &mut Framer,
    piece: &[u8],
) -> Result<usize, TargetFault>
    ensures ok { IfOk result (λ n. TakesHeader framer.old piece.now n framer.new) }
    ensures kept { OnOk result (machine.new ≡ machine.old) }
    ensures err { IfErr result (TargetRestFails framer.old piece.now) }
    ensures shut { OnErr result (machine.new ≡ closed_machine machine.old) }
    ensures stopped { OnErr result (framer.new ≡ stopped framer.old) }
{
    match framer.feed_header(piece) {
        Ok(taken) => Ok(taken),
        Err(fault) => {
            machine.close();
            Err(stream_fault(fault))
        }
    }
}

// Takes bytes up to the end of a PDU. A fault closes the session.
fn take_rest(machine: &mut Machine, framer: &mut Framer, piece: &[u8]) -> Result<usize, TargetFault>
    ensures ok { IfOk result (λ n. FramerTakes framer.old piece.now n framer.new) }
    ensures kept { OnOk result (machine.new ≡ machine.old) }
    ensures err { IfErr result (TargetRestFails framer.old piece.now) }
    ensures shut { OnErr result (machine.new ≡ closed_machine machine.old) }
    ensures stopped { OnErr result (framer.new ≡ stopped framer.old) }
{
    match framer.feed(piece) {
        Ok(taken) => Ok(taken),
        Err(fault) => {
            machine.close();
            Err(stream_fault(fault))
        }
    }
}

// A stream's `NoMemory` is the target's own.
fn stream_fault(fault: StreamFault) -> TargetFault
    ensures { result ≡ target_stream_fault fault }
{
    match fault {
        StreamFault::NoMemory => TargetFault::NoMemory,
        _ => TargetFault::Stream(fault),
    }
}

// The write that takes the segment of the PDU whose header came, where that is a Data-Out that is
// due, with a segment.
fn expect_data(machine: &mut Machine, framer: &Framer) -> Option<Incoming>
    ensures none { IfNone result (machine.new ≡ machine.old) }
    ensures arrives { IfSome result (ArrivesForWrite machine.new framer.now) }
    ensures same { IfSome result (λ a. connected machine.new framer.now (Some a)
        ≡ target_connection machine.old framer.now) }
{
    let (head, len) = framer.begun()?;
    let Head::DataOut(head) = head else {
        return None;
    };
    if len == 0 {
        return None;
    }
    machine.expect_data(head, len)
}

// Notes whether a command that may be executed for the PDU that is ready asks that what was written
// lasts, over a disk with a write cache.
fn note_framed(machine: &Machine, framer: &Framer, asks: &mut bool)
    ensures noted { has_cache machine.now ≡ true → asks.new ≡ false → asks.old ≡ false }
    ensures none { has_cache machine.now ≡ true → asks.new ≡ false → NoneReadyAsks machine.now framer.now }
    ensures only { asks.new ≡ true → (asks.old ≡ true) ⊎ SomeReadyAsks machine.now framer.now }
    ensures plain { has_cache machine.now ≡ false → asks.new ≡ asks.old }
{
    if !machine.has_cache() {
        return;
    }
    if let Some(pdu) = framer.pdu() {
        if machine.asks(&pdu.head) {
            *asks = true;
        }
    }
}

// The same of a Data-Out that a write takes.
fn note_arrived(machine: &Machine, framer: &Framer, incoming: &Incoming, asks: &mut bool)
    requires arrives { ArrivesForWrite machine.now framer.now incoming.now }
    ensures noted { has_cache machine.now ≡ true → asks.new ≡ false → asks.old ≡ false }
    ensures none { let c = connected machine.now framer.now (Some incoming.now) in
        has_cache machine.now ≡ true → asks.new ≡ false → NoneReadyAsks c.machine c.framing }
    ensures only { let c = connected machine.now framer.now (Some incoming.now) in
        asks.new ≡ true → (asks.old ≡ true) ⊎ SomeReadyAsks c.machine c.framing }
    ensures plain { has_cache machine.now ≡ false → asks.new ≡ asks.old }
{
    if !machine.has_cache() || !incoming.is_there() {
        return;
    }
    if machine.asks(&Head::DataOut(incoming.head())) || incoming.asks() {
        *asks = true;
    }
}

// Answers the PDU that is ready, if one is, and frees the framer for the next one. Returns the rule
// that it broke, if it broke one. Being out of memory closes the session.
fn answer_framed<S: BlockStore>(
    machine: &mut Machine,
    framer: &mut Framer,
    store: &mut S,
    out: &mut Vec<u8>,
) -> Result<Option<u8>, AllocError>
    requires limit { framer.old.limit ≡ target_limit machine.old.session.settings }
    requires live { is_machine_closed machine.old ≡ false }
    ensures ok { IfOk result (λ rule. AnswersReady S.protected
        (scene (target_connection machine.old framer.old)
        (store_of (S.disk store.old) (S.failures store.old)) out.old.items) rule
        (scene (target_connection machine.new framer.new)
        (store_of (S.disk store.new) (S.failures store.new)) out.new.items)) }
    ensures err { OnErr result (TargetShutsReady S.protected
        (scene (target_connection machine.old framer.old)
        (store_of (S.disk store.old) (S.failures store.old)) out.old.items)
        (scene (target_connection machine.new framer.new)
        (store_of (S.disk store.new) (S.failures store.new)) out.new.items)) }
    ensures crash { CrashesReady S.protected (target_connection machine.old framer.old)
        (S.disk store.old)
        (S.disk store.new) (S.kept store.old) (S.kept store.new) }
{
    let Some(pdu) = framer.pdu() else {
        return Ok(None);
    };
    let received = Received {
        pdu,
        continued: framer.continued(),
    };
    match machine.answer_pdu(&received, store, out) {
        Ok(broken) => {
            framer.take();
            Ok(broken)
        }
        Err(error) => {
            machine.close();
            framer.take();
            Err(error)
        }
    }
}

// Answers a Data-Out whose segment a write took, and frees the framer for the next PDU. Returns the
// rule that a task behind it broke, if one did. Being out of memory closes the session.
fn answer_arrived<S: BlockStore>(
    machine: &mut Machine,
    framer: &mut Framer,
    incoming: Incoming,
    store: &mut S,
    out: &mut Vec<u8>,
) -> Result<Option<u8>, AllocError>
    requires arrives { ArrivesForWrite machine.old framer.old incoming }
    requires there { IsSegmentThere incoming }
    requires limit { framer.old.limit ≡ target_limit machine.old.session.settings }
    ensures ok { IfOk result (λ rule. IsAnswered S.protected
        (scene (connected machine.old framer.old (Some incoming))
        (store_of (S.disk store.old) (S.failures store.old)) out.old.items) rule
        (scene (target_connection machine.new framer.new)
        (store_of (S.disk store.new) (S.failures store.new)) out.new.items)) }
    ensures err { OnErr result (TargetShutsReady S.protected
        (scene (connected machine.old framer.old (Some incoming))
        (store_of (S.disk store.old) (S.failures store.old)) out.old.items)
        (scene (target_connection machine.new framer.new)
        (store_of (S.disk store.new) (S.failures store.new)) out.new.items)) }
    ensures crash { CrashesReady S.protected (connected machine.old framer.old (Some incoming))
        (S.disk store.old) (S.disk store.new) (S.kept store.old) (S.kept store.new) }
{
    let (place, write) = incoming.into_write();
    framer.skip();
    match machine.resume(place, write, store, out) {
        Ok(broken) => Ok(broken),
        Err(error) => {
            machine.close();
            Err(error)
        }
    }
}
