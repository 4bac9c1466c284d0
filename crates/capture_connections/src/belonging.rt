//! Which connection a segment belongs to.

ghost use Rattle.std.specs.Prelude.{◌≡◌, OnOk, IfOk, IfErr, Some, if◌then◌else◌};
ghost use Rattle.std.specs.HashMap.{get};
ghost use Rattle.capture_connections.specs.SameEnds.{same_ends};
ghost use Rattle.capture_connections.specs.declared.ends.Ends.{Ends};
ghost use Rattle.capture_connections.specs.Belonging.{begins_anew, last_from_first, last_with_segment, leaves, owner_at, start_after};
ghost use Rattle.capture_connections.specs.declared.fault.ConnectionsFault.TheVariants.{NoMemory};

use crate::ends::{Ends, Side};
use crate::fault::ConnectionsFault;
use crate::heard::Said;
use std::collections::HashMap;

/// Where the stream of a direction begins: the number of its first byte.
#[derive(Clone, Copy)]
pub enum Start {
    /// Nothing was heard of it.
    Unknown,
    /// It is that of the first segment with bytes: no SYN came before.
    Bytes(u32),
    /// A SYN told it.
    Syn(u32),
}

/// The last connection with its two ends.
#[derive(Clone, Copy)]
pub struct Last {
    /// Its number.
    pub number: usize,
    /// Where the stream of its lower end begins.
    pub lower: Start,
    /// Where the stream of its upper end begins.
    pub upper: Start,
}

impl Start {
    /// Where a direction begins after one of its segments.
    pub fn after(self, said: Said) -> Start
        ensures { result ≡ start_after self said }
    {
        match self {
            Start::Unknown => {
                if said.syn {
                    Start::Syn(said.first)
                } else if said.some {
                    Start::Bytes(said.first)
                } else {
                    Start::Unknown
                }
            }
            Start::Bytes(first) => Start::Bytes(first),
            Start::Syn(first) => Start::Syn(first),
        }
    }
}

// Whether the segment is a SYN that is not the one of its direction, which begins at `own`.
fn begins_anew(said: Said, own: Start, other: Start) -> bool
    ensures { result ≡ begins_anew own other said }
{
    said.syn
        && match own {
            Start::Unknown => !said.ack && matches!(other, Start::Bytes(_)),
            Start::Bytes(first) | Start::Syn(first) => first != said.first,
        }
}

impl Last {
    // Whether the segment begins another connection with the same ends.
    fn is_left(&self, said: Said) -> bool
        ensures { result ≡ leaves self.now said }
    {
        match said.side {
            Side::Lower => begins_anew(said, self.lower, self.upper),
            Side::Upper => begins_anew(said, self.upper, self.lower),
        }
    }

    // The connection with this number, of which this is the first segment.
    fn first(number: usize, said: Said) -> Last
        ensures { result ≡ last_from_first number said }
    {
        let start = Start::Unknown.after(said);
        match said.side {
            Side::Lower => Last {
                number,
                lower: start,
                upper: Start::Unknown,
            },
            Side::Upper => Last {
                number,
                lower: Start::Unknown,
                upper: start,
            },
        }
    }

    // The connection after one more of its segments.
    fn joined(self, said: Said) -> Last
        ensures { result ≡ last_with_segment self said }
    {
        match said.side {
            Side::Lower => Last {
                number: self.number,
                lower: self.lower.after(said),
                upper: self.upper,
            },
            Side::Upper => Last {
                number: self.number,
                lower: self.lower,
                upper: self.upper.after(said),
            },
        }
    }
}

// The connection that a segment belongs to, after it, where so many were before, and this was the
// last one with its ends.
fn owner(count: usize, last: Option<Last>, said: Said) -> Last
    ensures { result ≡ owner_at count last said }
{
    match last {
        None => Last::first(count, said),
        Some(last) => {
            if last.is_left(said) {
                Last::first(count, said)
            } else {
                last.joined(said)
            }
        }
    }
}

/// The number of the connection that a segment with these ends belongs to, where so many were
/// before. A new connection has the next number.
pub(crate) fn place(
    last: &mut HashMap<Ends, Last>,
    count: usize,
    ends: Ends,
    said: Said,
) -> Result<usize, ConnectionsFault>
    ensures number { IfOk result (λ number.
        number ≡ (owner_at count (get same_ends last.old ends) said).number) }
    ensures last { OnOk result ((q : Ends) → get same_ends last.new q ≡ (if same_ends ends q
        then Some (owner_at count (get same_ends last.old ends) said)
        else get same_ends last.old q)) }
    ensures fault { IfErr result (λ fault. fault ≡ NoMemory) }
{
    let owner = owner(count, last.get(&ends).copied(), said);
    last.insert(ends, owner)?;
    Ok(owner.number)
}
