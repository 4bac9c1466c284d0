//! The connections of a capture. One file, since each call keeps the same invariant of the list.

ghost use Rattle.std.specs.Prelude.{◌≡◌, ◌≢◌, ◌<◌, ◌≤◌, ◌+◌, ◌-◌, ◌^◌, ℕ, OnOk, IfOk, IfErr, IfSome, IsSome, length, max, min, slice_get, None, Some, [], ◌∷◌, ◌++◌};
ghost use Rattle.capture_connections.specs.Following.{TableStep, KeepsConnection, KeepsConnections, ConnectionStep, no_connections, unheard};
ghost use Rattle.capture_connections.specs.Sides.{sent_at};
ghost use Rattle.capture_connections.specs.Waiting.{most_bytes_waiting, waiting_in, waiting_in_all};
ghost use Rattle.capture_connections.specs.inner.Waiting.{larger_at, connection_waiting};
ghost use Rattle.capture_connections.specs.declared.connections.Connection.{Connection};
ghost use Rattle.capture_connections.specs.declared.fault.ConnectionsFault.TheVariants.{NoMemory};

use crate::belonging::{Last, place};
use crate::ends::{Ends, Side};
use crate::fault::ConnectionsFault;
use crate::half::{Half, WAITING};
use crate::heard::{Heard, Said};
use std::alloc::Global;
use std::collections::HashMap;
use std::marker::Model;

/// How many bytes may wait in all directions together, as in `WAITING`: 64 MiB.
pub const MOST_WAITING: usize = 64 * WAITING;

/// A TCP connection.
#[derive(Drop)]
pub struct Connection {
    /// Its ends.
    pub ends: Ends,
    /// Who sent its first segment.
    pub first: Side,
    /// Who began it, by the first SYN that was captured.
    pub opener: Option<Side>,
    /// What its lower end sent.
    pub lower: Half,
    /// What its upper end sent.
    pub upper: Half,
}

/// The connections of a capture so far, in the order of their first segments.
#[derive(Drop)]
pub struct Connections {
    alloc: Global,
    last: HashMap<Ends, Last>,
    list: Vec<Connection>,
    // how much waits in all directions together; `None` where that is to be counted anew
    waiting: Option<usize>,
}

impl Model for Connections {
    ghost use Rattle.capture_connections.specs.Following.{Table};

    ghost Value = { Table };

    ghost view = { λ c. record { last = c.last.entries; connections = c.list.items } };

    ghost use Rattle.capture_connections.specs.inner.Waiting.{IsCounted};

    ghost invariant = { λ c. IsCounted c.waiting c.list.items };
}

impl Connection {
    // The connection that a segment begins, before it.
    fn begun(heard: &Heard<'_>) -> Connection
        ensures lower { result.lower ≡ unheard }
        ensures upper { result.upper ≡ unheard }
    {
        Connection {
            ends: heard.ends,
            first: heard.said.side,
            opener: None,
            lower: Half::new(),
            upper: Half::new(),
        }
    }

    // Takes one of its segments.
    fn take(
        &mut self,
        alloc: Global,
        heard: &Heard<'_>,
        out: &mut Vec<u8>,
    ) -> Result<(), ConnectionsFault>
        requires { length heard.now.bytes.now < 2 ^ 32 }
        ensures steps { OnOk result (ConnectionStep (Some self.old) heard.now self.new
            out.old.items out.new.items) }
        ensures fault { IfErr result (λ fault. fault ≡ NoMemory) }
    {
        self.opener = opener_after(self.opener, heard.said);
        match heard.said.side {
            Side::Lower => self.lower.take(alloc, heard, out),
            Side::Upper => self.upper.take(alloc, heard, out),
        }
    }

    // Follows the direction no further in which more waits, if any does.
    #[tactic(auto, using(crate::proofs::Keeping::may_stay, crate::proofs::Keeping::may_end))]
    fn give_up(&mut self)
        ensures keeps { KeepsConnection self.old self.new }
        ensures less { 0 < waiting_in self.old → waiting_in self.new < waiting_in self.old }
    {
        if self.lower.waiting >= self.upper.waiting {
            if self.lower.waiting > 0 {
                self.lower.give_up();
            }
        } else {
            self.upper.give_up();
        }
    }

    // How much waits in its two directions.
    fn waiting(&self) -> usize
        ensures { result ≡ waiting_in self.now }
    {
        self.lower.waiting as usize + self.upper.waiting as usize
    }

    /// Who began it: the sender of the SYN, or the receiver of a SYN with ACK. Without a SYN it is
    /// the end that begins with a login request, else the end whose peer has port 3260, else the
    /// sender of the first segment.
    pub fn initiator(&self) -> Side
        ensures opener { IfSome self.now.opener (λ side. result ≡ side) }
    {
        if let Some(side) = self.opener {
            return side;
        }
        if self.lower.is_login() {
            return Side::Lower;
        }
        if self.upper.is_login() {
            return Side::Upper;
        }
        let lower = self.ends.lower.port() == PORT;
        let upper = self.ends.upper.port() == PORT;
        if upper && !lower {
            return Side::Lower;
        }
        if lower && !upper {
            return Side::Upper;
        }
        self.first
    }

    /// What an end sent.
    pub fn half(&self, side: Side) -> &Half
        ensures { result.now ≡ sent_at side self.now }
    {
        match side {
            Side::Lower => &self.lower,
            Side::Upper => &self.upper,
        }
    }
}

/// The port of iSCSI targets (RFC 7143, section 13.1).
pub const PORT: u16 = 3260;

// Who began a connection, after one more of its segments.
fn opener_after(opener: Option<Side>, said: Said) -> Option<Side> {
    if opener.is_some() || !said.syn {
        return opener;
    }
    if said.ack {
        Some(said.side.other())
    } else {
        Some(said.side)
    }
}

// The connection with this number takes a segment; with the next number, a new one does.
#[tactic(auto, using(crate::proofs::Places::get_set_same, crate::proofs::Places::get_set_other))]
fn hear(
    alloc: Global,
    list: &mut Vec<Connection>,
    number: usize,
    heard: &Heard<'_>,
    out: &mut Vec<u8>,
) -> Result<(), ConnectionsFault>
    requires { length heard.now.bytes.now < 2 ^ 32 }
    ensures count { OnOk result (length list.new.items ≡ max (length list.old.items) (number + 1)) }
    ensures own { OnOk result ((connection : Connection)
        × (slice_get list.new.items number ≡ Some connection)
        × ConnectionStep (slice_get list.old.items number) heard.now connection
        out.old.items out.new.items) }
    ensures others { OnOk result ((k : ℕ) → k ≢ number →
        slice_get list.new.items k ≡ slice_get list.old.items k) }
    ensures fault { IfErr result (λ fault. fault ≡ NoMemory) }
{
    if number == list.len() {
        return hear_first(alloc, list, heard, out);
    }
    let Some(connection) = list.get_mut(number) else {
        return Err(ConnectionsFault::NoMemory);
    };
    connection.take(alloc, heard, out)?;
    Ok(())
}

// A new connection takes its first segment.
fn hear_first(
    alloc: Global,
    list: &mut Vec<Connection>,
    heard: &Heard<'_>,
    out: &mut Vec<u8>,
) -> Result<(), ConnectionsFault>
    requires { length heard.now.bytes.now < 2 ^ 32 }
    ensures new { OnOk result ((connection : Connection)
        × (list.new.items ≡ list.old.items ++ connection ∷ [])
        × ConnectionStep None heard.now connection out.old.items out.new.items) }
    ensures fault { IfErr result (λ fault. fault ≡ NoMemory) }
{
    let mut connection = Connection::begun(heard);
    connection.take(alloc, heard, out)?;
    list.push(connection)?;
    Ok(())
}

impl Connections {
    /// No connection. It takes no memory.
    pub fn new(alloc: Global) -> Connections
        ensures { result ≡ no_connections }
    {
        Connections {
            alloc,
            last: HashMap::new(alloc),
            list: Vec::new(alloc),
            waiting: Some(0),
        }
    }

    /// The connections, in the order of their first segments.
    pub fn list(&self) -> &[Connection]
        ensures { result.now ≡ self.now.connections }
    {
        &self.list
    }

    /// Takes the next segment of the capture, and says which connection it belongs to. Appends to
    /// `out` the bytes of its sender's stream that are known now and were not before.
    ///
    /// Returns `NoMemory` alone, if memory runs out. After that do not use the connections: no
    /// clause says what they are.
    pub fn take(&mut self, heard: Heard<'_>, out: &mut Vec<u8>) -> Result<usize, ConnectionsFault>
        requires { length heard.bytes.now < 2 ^ 32 }
        ensures hears { IfOk result (λ number. TableStep self.old heard.entry number self.new
            out.old.items out.new.items) }
        ensures fault { IfErr result (λ fault. fault ≡ NoMemory) }
    {
        let count = self.list.len();
        let number = place(&mut self.last, count, heard.ends, heard.said)?;
        let waiting = self.waiting.take();
        let before = waiting_of(&self.list, number);
        hear(self.alloc, &mut self.list, number, &heard, out)?;
        let after = waiting_of(&self.list, number);
        self.waiting = waiting_after(waiting, before, after);
        Ok(number)
    }

    /// Follows directions no further, each that with most, until no more waits in all of them
    /// together than 64 MiB. If no more does, all stay as they are.
    pub fn keep_within(&mut self)
        ensures last { self.new.last ≡ self.old.last }
        ensures keeps { KeepsConnections self.old.connections self.new.connections }
        ensures within { waiting_in_all self.new.connections ≤ most_bytes_waiting }
        ensures kept { waiting_in_all self.old.connections ≤ most_bytes_waiting → self.new
            ≡ self.old }
    {
        if let Some(waiting) = self.waiting {
            if waiting <= MOST_WAITING {
                return;
            }
        }
        self.waiting = Some(give_up_until_within(&mut self.list));
    }
}

// Follows directions no further, each that with most, until no more waits than may, and says how
// much does.
#[tactic(auto, using(crate::proofs::Keeping::keeps_same, crate::proofs::Keeping::keeps_then))]
fn give_up_until_within(list: &mut Vec<Connection>) -> usize
    ensures keeps { KeepsConnections list.old.items list.new.items }
    ensures count { result ≡ waiting_in_all list.new.items }
    ensures within { result ≤ most_bytes_waiting }
    ensures kept { waiting_in_all list.old.items ≤ most_bytes_waiting → list.new.items
        ≡ list.old.items }
{
    let mut waiting = waiting_in(list);
    while waiting > MOST_WAITING {
        give_up_most(list);
        waiting = waiting_in(list);
    }
    waiting
}

// How much waits in all of these, or 2^64 - 1 if that is more.
fn waiting_in(list: &[Connection]) -> usize
    ensures { result ≡ min (waiting_in_all list.now) (2 ^ 64 - 1) }
{
    let mut waiting: usize = 0;
    for connection in list {
        waiting = waiting.saturating_add(connection.waiting());
    }
    waiting
}

// How much waits in all connections, after one of them had so much before and has so much now;
// `None` where that was not counted.
fn waiting_after(waiting: Option<usize>, before: usize, after: usize) -> Option<usize>
    ensures { IfSome result (λ n. IfSome waiting (λ all. n + before ≡ all + after) × IsSome waiting) }
{
    waiting?.checked_sub(before)?.checked_add(after)
}

// How much waits in the connection with this number.
fn waiting_of(list: &[Connection], number: usize) -> usize
    ensures { result ≡ connection_waiting (slice_get list.now number) }
{
    match list.get(number) {
        Some(connection) => connection.waiting(),
        None => 0,
    }
}

// The number of the connection with the direction in which most waits.
fn most_waiting(list: &[Connection]) -> usize
    ensures { (k : ℕ) → larger_at (slice_get list.now k) ≤ larger_at (slice_get list.now result) }
{
    let mut number: usize = 0;
    for k in 0..list.len() {
        number = larger_of(list, number, k);
    }
    number
}

// That one of two connections with the direction in which more waits.
fn larger_of(list: &[Connection], first: usize, second: usize) -> usize
    ensures first { larger_at (slice_get list.now first) ≤ larger_at (slice_get list.now result) }
    ensures second { larger_at (slice_get list.now second) ≤ larger_at (slice_get list.now result) }
{
    if larger_in(list, first) < larger_in(list, second) {
        second
    } else {
        first
    }
}

// How much waits in that direction of a connection in which more does.
fn larger_in(list: &[Connection], number: usize) -> u32
    ensures { result ≡ larger_at (slice_get list.now number) }
{
    match list.get(number) {
        Some(connection) => connection.lower.waiting.max(connection.upper.waiting),
        None => 0,
    }
}

// Follows the direction no further in which most waits.
#[tactic(auto, using(crate::proofs::Keeping::keeps_same, crate::proofs::Keeping::keeps_one))]
fn give_up_most(list: &mut Vec<Connection>)
    ensures keeps { KeepsConnections list.old.items list.new.items }
    ensures less { 0 < waiting_in_all list.old.items
        → waiting_in_all list.new.items < waiting_in_all list.old.items }
{
    let most = most_waiting(list);
    let Some(connection) = list.get_mut(most) else {
        return;
    };
    connection.give_up();
}
