//! A listening socket, and the sessions of those who came there.

ghost use Rattle.std.specs.Prelude.{◌≡◌, ◌≤◌, ◌↔◌, false, length, IsTrue, IfSome, IfOk, IfErr, OnOk};
ghost use Rattle.iscsi_target.specs.Advances.{store_of};
ghost use Rattle.iscsi_sessions.specs.Slots.{free_slots};
ghost use Rattle.iscsi_serving.specs.Executed.{HasExecuted};
ghost use Rattle.iscsi_serving.specs.Faults.{EndsService};
ghost use Rattle.iscsi_serving.specs.declared.fault.ServeFault.TheVariants as serve;
ghost use Rattle.std.specs.Option.{option_map};
ghost use Rattle.iscsi_options.specs.Options.{stop_count};
ghost use Rattle.iscsi_serving.specs.Access.{door_of};
ghost use Rattle.iscsi_event_loop.specs.Running.{RunsFew, RunsInTurns, RunsWithin, most_pdus};
ghost use Rattle.iscsi_event_loop.specs.Serving.{has_all, IsServiceDone, IsEmpty};

mod admitting;
mod ending;
mod running;
mod serving;
mod waiting;

use crate::accepting::Accepting;
use crate::growth::Watched;
use crate::lines::Lines;
use crate::manner::Manner;
use crate::peer::{Peer, no_peers};
use crate::system::{OTHER_DESCRIPTORS, listen, most_descriptors, now};
use iscsi_options::{Options, Stop};
use iscsi_serving::{Access, ServeFault};
use iscsi_sessions::SessionTable;
use mio::net::TcpListener;
use mio::{Events, Poll};
pub use running::RunEnd;
use scsi_disk::BlockStore;
use std::alloc::{AllocError, Global};
use std::marker::Model;
use std::net::SocketAddr;

/// A listening socket, and the sessions of those who came there, some at a time, by calls of `turn`.
#[derive(Drop)]
pub struct Server<'a> {
    manner: Manner,
    options: Options<'a>,
    serial: &'a [u8],
    access: Access<'a>,
    lines: Lines,
    poll: Poll,
    events: Events,
    // none once all that are to be were counted
    listener: Option<TcpListener>,
    accepting: Accepting,
    // how many connections were accepted, or logins completed, whichever is to end the service
    counted: u64,
    table: SessionTable,
    peers: Vec<Option<Peer>>,
    // the number of the session of each slot, and 0 of one that is free
    numbers: Vec<u16>,
    // the number of the connection that was accepted last
    last_number: u16,
    // how many connections were accepted before that of each slot
    arrivals: Vec<u64>,
    // how many connections were accepted
    accepted: u64,
    // how many turns were taken since the system was asked who is ready
    unasked: u32,
    // the image, if it may grow
    watched: Option<Watched>,
}

impl<'a> Model for Server<'a> {
    ghost use Rattle.std.specs.Prelude.{◌≤◌, IfSome};
    ghost use Rattle.std.specs.Option.{option_map};
    ghost use Rattle.iscsi_options.specs.Options.{stop_count};
    ghost use Rattle.iscsi_serving.specs.Access.{door_of};
    ghost use Rattle.iscsi_event_loop.specs.Serving.{ServerState};

    ghost Value = { ServerState };

    ghost view = { λ s. record {
      room = record { table = s.table; door = door_of s.access };
      counted = s.counted;
      most = option_map stop_count s.options.stop;
    } };

    ghost invariant = { λ s. IfSome (option_map stop_count s.options.stop) (λ n. s.counted ≤ n) };
}

impl<'a> Server<'a> {
    /// Listens, with all slots free, for those who may log in. The disk has this serial number, 1 to 16 bytes
    /// of `!` to `~`, if it tells one. `Network` is returned where that fails, and, with a line, if there are more
    /// slots than the process may have descriptors for; `NoMemory` where memory runs out.
    pub fn open(
        rt: &HostRuntime,
        options: Options<'a>,
        serial: &'a [u8],
        access: Access<'a>,
    ) -> Result<Server<'a>, ServeFault>
        ensures slots { IfOk result (λ server. length server.room.table.slots ≡ options.entry.at_once) }
        ensures free { IfOk result (λ server.
            server.room.table ≡ free_slots options.entry.at_once) }
        ensures empty { IfOk result (λ server. IsEmpty server.room.table) }
        ensures door { IfOk result (λ server. server.room.door ≡ door_of access.entry) }
        ensures counted { IfOk result (λ server. server.counted ≡ 0) }
        ensures most { IfOk result (λ server.
            server.most ≡ option_map stop_count options.entry.stop) }
        ensures ends { IfErr result EndsService }
    {
        allow_slots(rt, options.at_once)?;
        Server::opened(rt, options, serial, access, Manner::AtOnce)
    }

    /// Listens for one connection after another of those who may log in, with the slot free. The disk tells
    /// nothing beyond the bare profile, whatever the options say. `Network` is returned where listening
    /// fails, and `NoMemory` where memory runs out.
    pub fn open_in_turn(
        rt: &HostRuntime,
        options: Options<'a>,
        access: Access<'a>,
    ) -> Result<Server<'a>, ServeFault>
        ensures slots { IfOk result (λ server. length server.room.table.slots ≡ 1) }
        ensures free { IfOk result (λ server.
            server.room.table ≡ free_slots 1) }
        ensures empty { IfOk result (λ server. IsEmpty server.room.table) }
        ensures door { IfOk result (λ server. server.room.door ≡ door_of access.entry) }
        ensures counted { IfOk result (λ server. server.counted ≡ 0) }
        ensures most { IfOk result (λ server.
            server.most ≡ option_map stop_count options.entry.stop) }
        ensures ends { IfErr result EndsService }
    {
        Server::opened(rt, in_turn(options), b"", access, Manner::InTurn(None))
    }

    // Listens, with all slots free, for connections that are taken in this manner.
    #[tactic(auto, using(crate::proofs::RunningLemmas::free_empty))]
    fn opened(
        rt: &HostRuntime,
        options: Options<'a>,
        serial: &'a [u8],
        access: Access<'a>,
        manner: Manner,
    ) -> Result<Server<'a>, ServeFault>
        ensures slots { IfOk result (λ server. length server.room.table.slots ≡ options.entry.at_once) }
        ensures free { IfOk result (λ server.
            server.room.table ≡ free_slots options.entry.at_once) }
        ensures empty { IfOk result (λ server. IsEmpty server.room.table) }
        ensures door { IfOk result (λ server. server.room.door ≡ door_of access.entry) }
        ensures counted { IfOk result (λ server. server.counted ≡ 0) }
        ensures most { IfOk result (λ server.
            server.most ≡ option_map stop_count options.entry.stop) }
        ensures ends { IfErr result EndsService }
    {
        let alloc = rt.alloc();
        let count = usize::from(options.at_once);
        let (peers, numbers, arrivals) = no_places(alloc, count)?;
        let table = SessionTable::new(alloc, count)?;
        let events = Events::with_capacity(alloc, count + 1)?;
        let (poll, listener) = listen(rt, SocketAddr::new(options.listen, options.port))?;
        Ok(Server {
            manner,
            options,
            serial,
            access,
            lines: Lines::new(),
            poll,
            events,
            listener: Some(listener),
            accepting: Accepting::new(),
            counted: 0,
            table,
            peers,
            numbers,
            last_number: 0,
            arrivals,
            accepted: 0,
            unasked: 0,
            watched: None,
        })
    }

    /// The port at which it listens; `Network` where the system doesn't tell it, or all that are to be
    /// were counted.
    pub fn port(&self) -> Result<u16, ServeFault>
        ensures ends { IfErr result (λ fault. fault ≡ serve.Network) }
    {
        match &self.listener {
            Some(listener) => port_of(listener),
            None => Err(ServeFault::Network),
        }
    }

    /// Whether all sessions were served. No more are counted than are to be.
    pub fn is_done(&self) -> bool
        ensures done { IsTrue result ↔ IsServiceDone self.now }
        ensures limit { IfSome self.now.most (λ n. self.now.counted ≤ n) }
    {
        self.has_all() && is_empty(&self.table)
    }

    /// Tells how many lines were left out, if any were, whatever came in this second: no other line follows.
    pub fn tell_rest(&mut self, rt: &HostRuntime)
        ensures same { self.new ≡ self.old }
    {
        self.lines.tell_rest(rt);
    }

    // Whether all were counted that are to be.
    fn has_all(&self) -> bool
        ensures all { result ≡ has_all self.now.most self.now.counted }
    {
        match self.options.stop {
            Some(stop) => u64::from(stop.count()) <= self.counted,
            None => false,
        }
    }

    // Counts one more. With the last one the listener closes.
    fn count(&mut self)
        ensures same { self.new.room ≡ self.old.room }
        ensures most { self.new.most ≡ self.old.most }
        ensures counted { self.old.counted ≤ self.new.counted }
    {
        if !self.has_all() && self.counted < u64::MAX {
            self.counted += 1;
        }
        if self.has_all() {
            self.listener = None;
        }
    }

    /// Waits until there is something to do. Then it accepts connections, as long as a slot is free
    /// or makes room and not all that are to be were counted. It gives each slot a turn. With the last
    /// connection or login that is to be the listener closes. If logins are counted, connections that
    /// have not logged in are ended then.
    ///
    /// The line of a session that ends with a fault goes to the standard error, and the others go
    /// on. A connection that the system does not watch, or for which there is no memory, is closed.
    /// If the system has no room for connections, nobody is accepted until a slot gets free or a
    /// second is over. The system's refusing to wait or to tell the time (`Network`) is returned.
    ///
    /// Where a sync fails, no answer leaves any more, all sessions end, and `Sync` is returned: what commands
    /// wrote may be lost.
    ///
    /// One that takes connections in turn accepts the next one behind the end of the last, and ends none
    /// for its time. It returns `NoMemory` where memory runs out, in a session too, and `Network` where the
    /// system accepts nobody.
    #[tactic(auto, using(crate::proofs::RunningLemmas::none_turns, crate::proofs::RunningLemmas::idle_turns, crate::proofs::RunningLemmas::none_few, crate::proofs::RunningLemmas::none_runs, crate::proofs::RunningLemmas::idle_few, crate::proofs::RunningLemmas::few_runs, crate::proofs::RunningLemmas::none_executed, crate::proofs::RunningLemmas::runs_executed))]
    pub fn turn<S: BlockStore>(&mut self, rt: &HostRuntime, store: &mut S) -> Result<(), ServeFault>
        // Whatever comes of it, it is a run of the table, of which the laws of `iscsi_sessions` speak.
        ensures runs { RunsWithin S.protected
            self.old.room (store_of (S.disk store.old) (S.failures store.old))
            self.new.room (store_of (S.disk store.new) (S.failures store.new)) }
        // Each slot takes eight PDUs at most: so much the others do between two turns of one.
        ensures few { RunsFew S.protected (λ k. most_pdus)
            self.old.room (store_of (S.disk store.old) (S.failures store.old))
            self.new.room (store_of (S.disk store.new) (S.failures store.new)) }
        // Each slot has one turn at most. All its writes but the last one give the peer 262,144 bytes
        // at most, and the last one gives no more than what waited.
        ensures turns { RunsInTurns S.protected
            self.old.room (store_of (S.disk store.old) (S.failures store.old))
            self.new.room (store_of (S.disk store.new) (S.failures store.new)) }
        // The blocks are those that commands left.
        ensures blocks { HasExecuted S.protected (S.disk store.old) (S.disk store.new) }
        ensures slots { length self.new.room.table.slots ≡ length self.old.room.table.slots }
        ensures most { self.new.most ≡ self.old.most }
        ensures counted { self.old.counted ≤ self.new.counted }
        // It goes on only over a disk that lost nothing.
        ensures live { OnOk result (self.new.room.table.lost ≡ false) }
        ensures ends { IfErr result EndsService }
    {
        self.wait(now(rt)?)?;
        self.act(rt, store)
    }

    // What a turn does behind its wait.
    #[tactic(auto, using(crate::proofs::RunningLemmas::none_turns, crate::proofs::RunningLemmas::idle_turns, crate::proofs::RunningLemmas::none_few, crate::proofs::RunningLemmas::none_runs, crate::proofs::RunningLemmas::idle_few, crate::proofs::RunningLemmas::few_runs, crate::proofs::RunningLemmas::none_executed, crate::proofs::RunningLemmas::runs_executed))]
    fn act<S: BlockStore>(&mut self, rt: &HostRuntime, store: &mut S) -> Result<(), ServeFault>
        ensures runs { RunsWithin S.protected
            self.old.room (store_of (S.disk store.old) (S.failures store.old))
            self.new.room (store_of (S.disk store.new) (S.failures store.new)) }
        ensures few { RunsFew S.protected (λ k. most_pdus)
            self.old.room (store_of (S.disk store.old) (S.failures store.old))
            self.new.room (store_of (S.disk store.new) (S.failures store.new)) }
        ensures turns { RunsInTurns S.protected
            self.old.room (store_of (S.disk store.old) (S.failures store.old))
            self.new.room (store_of (S.disk store.new) (S.failures store.new)) }
        ensures blocks { HasExecuted S.protected (S.disk store.old) (S.disk store.new) }
        ensures slots { length self.new.room.table.slots ≡ length self.old.room.table.slots }
        ensures most { self.new.most ≡ self.old.most }
        ensures counted { self.old.counted ≤ self.new.counted }
        ensures live { OnOk result (self.new.room.table.lost ≡ false) }
        ensures ends { IfErr result EndsService }
    {
        let now = now(rt)?;
        self.admit(rt, now);
        self.serve_peers(rt, store, now);
        self.lines.tell_more(rt, now);
        self.goes_on()
    }

    // Whether the service goes on: no sync failed, and nothing ends connections that are taken in turn.
    fn goes_on(&self) -> Result<(), ServeFault>
        ensures live { OnOk result (self.now.room.table.lost ≡ false) }
        ensures ends { IfErr result EndsService }
    {
        if self.table.is_lost() {
            return Err(ServeFault::Sync);
        }
        self.manner.goes_on()
    }
}

// Refuses, with a line, more slots than the process may have descriptors for.
fn allow_slots(rt: &HostRuntime, slots: u16) -> Result<(), ServeFault>
    ensures ends { IfErr result EndsService }
{
    let wanted = u64::from(slots) + OTHER_DESCRIPTORS;
    match most_descriptors() {
        Some(most) if most < wanted => {
            let _ = eprintln!(rt;
                "--at-once {slots} wants {wanted} descriptors, and the limit is {most}"
            );
            Err(ServeFault::Network)
        }
        _ => Ok(()),
    }
}

/// The options of a service of one connection after another: one slot, and a disk that tells nothing beyond
/// the bare profile.
pub(crate) fn in_turn(options: Options<'_>) -> Options<'_>
    ensures { result ≡ record options.entry { at_once = 1; unit = None } }
{
    Options {
        at_once: 1,
        unit: None,
        ..options
    }
}

/// Places for the peers of slots, for their numbers and for their arrivals.
type Places = (Vec<Option<Peer>>, Vec<u16>, Vec<u64>);

// `n` places, all free.
fn no_places(alloc: Global, count: usize) -> Result<Places, AllocError> {
    let numbers = vec![in alloc; 0u16; count]?;
    let arrivals = vec![in alloc; 0u64; count]?;
    Ok((no_peers(alloc, count)?, numbers, arrivals))
}

// The port of a listener.
fn port_of(listener: &TcpListener) -> Result<u16, ServeFault>
    ensures ends { IfErr result (λ fault. fault ≡ serve.Network) }
{
    match listener.local_addr() {
        Ok(address) => Ok(address.port()),
        Err(_) => Err(ServeFault::Network),
    }
}

// Whether no session has a slot.
fn is_empty(table: &SessionTable) -> bool
    ensures empty { IsTrue result ↔ IsEmpty table.now }
{
    for slot in 0..table.slots() {
        if table.is_taken(slot) {
            return false;
        }
    }
    true
}
