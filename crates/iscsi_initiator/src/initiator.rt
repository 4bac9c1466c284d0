//! An initiator's session over a stream.

ghost use Rattle.std.specs.Prelude.{◌≡◌, false, take, IfOk, IfErr, OnOk, OnErr};
ghost use Rattle.iscsi_stream.specs.Framing.{FramerTakes, is_ready, stopped};
ghost use Rattle.iscsi_initiator.specs.State.{is_session_closed};
ghost use Rattle.iscsi_initiator.specs.Steps.{closed_session};
ghost use Rattle.iscsi_initiator.specs.Calls.{opening_initiator, InitiatorStartPost, InitiatorFeedPost, InitiatorSubmitPost, InitiatorFinishPost, after_taking};
ghost use Rattle.iscsi_initiator.specs.inner.Inside.{initiator_connection, initiator_stream_fault, ReceivesPdu, InitiatorShutsReady, InitiatorRestFails, FedUntil, has_run_out};

use crate::config::Config;
use crate::fault::InitiatorFault;
use crate::request::{Done, Refused, Request};
use crate::session::Session;
use iscsi_login::{Params, Phase, Stage};
use iscsi_pdu::LOGIN_SEGMENT;
use iscsi_stream::{Framer, StreamFault};
use std::alloc::{AllocError, Global};
use std::marker::Model;

/// An initiator's session: it takes the bytes of a target, appends what it sends, and returns the
/// outcome of each request.
///
/// | Phase | What holds |
/// |---|---|
/// | `Login` | the login runs, once it is started; requests are refused |
/// | `Full` | one request at a time is sent, and its outcome can be taken |
/// | `Closed` | each call returns `Closed`; an outcome can still be taken |
#[derive(Drop)]
pub struct Initiator {
    session: Session,
    framer: Framer,
}

impl Model for Initiator {
    ghost use Rattle.std.specs.Prelude.{◌≡◌, false};
    ghost use Rattle.iscsi_stream.specs.Framing.{is_ready};
    ghost use Rattle.iscsi_initiator.specs.Calls.{InitiatorConnection};

    ghost Value = { InitiatorConnection };

    ghost view = { λ i. record { machine = i.session; framing = i.framer } };

    ghost invariant = { λ i. is_ready i.framer ≡ false };
}

impl Initiator {
    /// A session that is not started. It takes no memory.
    pub fn new(alloc: Global, config: Config) -> Initiator
        ensures opening { result ≡ opening_initiator config }
    {
        let limit = config.preferences().max_recv.max(LOGIN_SEGMENT);
        Initiator {
            session: Session::new(alloc, config),
            framer: Framer::new(alloc, limit),
        }
    }

    /// Starts the login: appends the first text, or a part of it (RFC 7143, section 6.3).
    ///
    /// A second start returns `Protocol` with rule 1. After `NoMemory` `out` is as it was. Both close
    /// the session; a closed session returns `Closed`.
    pub fn start(&mut self, out: &mut Vec<u8>) -> Result<(), InitiatorFault>
        ensures starts { InitiatorStartPost result self.old self.new out.old.items out.new.items }
    {
        if self.session.is_closed() {
            return Err(InitiatorFault::Closed);
        }
        match self.session.start(out) {
            Ok(None) => Ok(()),
            Ok(Some(fault)) => Err(fault),
            Err(_) => {
                self.session.close();
                Err(InitiatorFault::NoMemory)
            }
        }
    }

    /// Takes a piece of the stream, and appends what the PDUs lead to that it completes. Returns
    /// the phase of the session then.
    ///
    /// The answer to a logout answers `Closed`, and the rest of the piece is dropped. After a fault the
    /// session is closed: `out` has what the PDUs before the one at fault led to, but after `NoMemory`
    /// it is as it was. A closed session returns `Closed` and takes nothing (RFC 7143, sections 6 and
    /// 11; the rules and their order are own).
    pub fn feed(&mut self, piece: &[u8], out: &mut Vec<u8>) -> Result<Phase, InitiatorFault>
        ensures feeds { InitiatorFeedPost result self.old piece.now self.new out.old.items
            out.new.items }
    {
        if self.session.is_closed() {
            return Err(InitiatorFault::Closed);
        }
        let held = out.len();
        let result = feed_all(&mut self.session, &mut self.framer, piece, out);
        if has_run_out(&result) {
            out.truncate(held);
            return result;
        }
        result
    }

    /// Hands in a request, and appends what it sends (RFC 7143, sections 4.2 and 11).
    ///
    /// A refused request comes back as it was, and nothing has changed; the refusals come in the order
    /// of `SubmitFault`.
    pub fn submit(&mut self, request: Request, out: &mut Vec<u8>) -> Result<(), Refused>
        ensures submits { InitiatorSubmitPost result self.old request self.new out.old.items
            out.new.items }
    {
        self.session.submit(request, out)
    }

    /// Takes the outcome of the last request, once it is there.
    pub fn outcome(&mut self) -> Option<Done>
        ensures outcome { result ≡ self.old.machine.done }
        ensures taken { self.new ≡ after_taking self.old }
    {
        self.session.outcome()
    }

    /// What the session holds of its login (RFC 7143, section 13).
    pub fn params(&self) -> &Params
        ensures held { result.now ≡ self.now.machine.held }
    {
        self.session.params()
    }

    /// What the session is doing.
    pub fn phase(&self) -> Phase
        ensures phase { result ≡ self.now.machine.phase }
    {
        self.session.phase()
    }

    /// Where the login is: the stage where it starts, then the one that the last good answer moved to.
    /// A closed session keeps it (RFC 7143, section 6.3).
    pub fn stage(&self) -> Stage
        ensures stage { result ≡ self.now.machine.stage }
    {
        self.session.stage()
    }

    /// Ends the stream. Returns `Stream` with `Truncated` where it ends within a PDU, which closes the
    /// session, and `Closed` where it was closed before.
    pub fn finish(&mut self) -> Result<(), InitiatorFault>
        ensures finishes { InitiatorFinishPost result self.old self.new }
    {
        if self.session.is_closed() {
            return Err(InitiatorFault::Closed);
        }
        match self.framer.finish() {
            Ok(()) => Ok(()),
            Err(fault) => {
                self.session.close();
                Err(InitiatorFault::Stream(fault))
            }
        }
    }
}

// Whether memory ran out.
fn has_run_out(fed: &Result<Phase, InitiatorFault>) -> bool
    ensures { result ≡ has_run_out fed.now }
{
    matches!(fed, Err(InitiatorFault::NoMemory))
}

// Takes a piece of the stream in a session that isn't closed. Where memory runs out the end of `out`
// is not as it was.
fn feed_all(
    session: &mut Session,
    framer: &mut Framer,
    piece: &[u8],
    out: &mut Vec<u8>,
) -> Result<Phase, InitiatorFault>
    requires unready { is_ready framer.old ≡ false }
    requires live { is_session_closed session.old ≡ false }
    ensures fed { FedUntil result (initiator_connection session.old framer.old) piece.now
        (initiator_connection session.new framer.new) out.old.items out.new.items }
    ensures unready { is_ready framer.new ≡ false }
{
    let mut rest = piece;
    while !rest.is_empty() {
        let taken = take_bytes(session, framer, rest)?;
        rest = &rest[taken..];
        let fault = receive_pdu(session, framer, out)?;
        if session.is_closed() {
            return match fault {
                Some(fault) => Err(fault),
                None => Ok(Phase::Closed),
            };
        }
    }
    Ok(session.phase())
}

// Takes bytes up to the end of a PDU. A fault closes the session.
fn take_bytes(
    session: &mut Session,
    framer: &mut Framer,
    piece: &[u8],
) -> Result<usize, InitiatorFault>
    ensures ok { IfOk result (λ n. FramerTakes framer.old piece.now n framer.new) }
    ensures kept { OnOk result (session.new ≡ session.old) }
    ensures err { IfErr result (InitiatorRestFails framer.old piece.now) }
    ensures shut { OnErr result (session.new ≡ closed_session session.old) }
    ensures stopped { OnErr result (framer.new ≡ stopped framer.old) }
{
    match framer.feed(piece) {
        Ok(taken) => Ok(taken),
        Err(fault) => {
            session.close();
            Err(stream_fault(fault))
        }
    }
}

// A stream's `NoMemory` is the initiator's own.
fn stream_fault(fault: StreamFault) -> InitiatorFault
    ensures { result ≡ initiator_stream_fault fault }
{
    match fault {
        StreamFault::NoMemory => InitiatorFault::NoMemory,
        _ => InitiatorFault::Stream(fault),
    }
}

// Receives the PDU that is ready, if one is, and frees the framer for the next one. Returns the
// fault that it led to, if it led to one. Being out of memory closes the session.
fn receive_pdu(
    session: &mut Session,
    framer: &mut Framer,
    out: &mut Vec<u8>,
) -> Result<Option<InitiatorFault>, AllocError>
    requires live { is_session_closed session.old ≡ false }
    ensures ok { IfOk result (λ fault. ReceivesPdu (initiator_connection session.old framer.old)
        fault
        (initiator_connection session.new framer.new) out.old.items out.new.items) }
    ensures err { OnErr result (InitiatorShutsReady (initiator_connection session.old framer.old)
        (initiator_connection session.new framer.new) out.old.items out.new.items) }
{
    let Some(pdu) = framer.pdu() else {
        return Ok(None);
    };
    match session.step(&pdu, framer.continued(), out) {
        Ok(fault) => {
            framer.take();
            Ok(fault)
        }
        Err(error) => {
            session.close();
            framer.take();
            Err(error)
        }
    }
}
