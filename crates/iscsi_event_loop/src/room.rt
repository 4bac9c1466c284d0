//! Which connection makes room for another one.

ghost use Rattle.std.specs.Prelude.{◌≡◌, ℕ, get_or, IfSome, IfNone};
ghost use Rattle.iscsi_sessions.specs.Slots.{slot_at};
ghost use Rattle.iscsi_event_loop.specs.inner.Room.{comes_first, is_guest, MakesRoom};

use iscsi_login::Phase;
use iscsi_sessions::SessionTable;

/// The slot that makes room for one more connection: where all slots are taken, that of the oldest
/// connection that has not logged in, whoever else has. None: a slot is free, or all have logged in.
/// Connections are numbered as they come, slot by slot.
pub fn makes_room(table: &SessionTable, arrivals: &[u64]) -> Option<usize>
    ensures some { IfSome result (λ slot. MakesRoom table.now arrivals.now slot) }
    ensures none { IfNone result ((slot : ℕ) → MakesRoom table.now arrivals.now slot → ⊥) }
{
    let mut oldest: Option<usize> = None;
    for slot in 0..table.slots() {
        if !table.is_taken(slot) {
            return None;
        }
        if has_guest(table, slot) && is_first(arrivals, slot, oldest) {
            oldest = Some(slot);
        }
    }
    oldest
}

// Whether the slot has a connection that has not logged in.
fn has_guest(table: &SessionTable, slot: usize) -> bool
    ensures { result ≡ is_guest (slot_at table.now slot) }
{
    match table.phase(slot) {
        Some(Phase::Login) => true,
        Some(Phase::Full | Phase::Closed) | None => false,
    }
}

// Whether the connection of a slot came before that of another one, if there is one.
fn is_first(arrivals: &[u64], slot: usize, other: Option<usize>) -> bool
    ensures { result ≡ comes_first arrivals.now slot other }
{
    match other {
        Some(other) => arrival_at(arrivals, slot) < arrival_at(arrivals, other),
        None => true,
    }
}

// The number of the connection at a slot.
fn arrival_at(arrivals: &[u64], slot: usize) -> u64
    ensures { result ≡ get_or arrivals.now slot 0 }
{
    if slot < arrivals.len() {
        arrivals[slot]
    } else {
        0
    }
}
