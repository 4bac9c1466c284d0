//! The pieces that came before their turn.

ghost use Rattle.std.specs.Prelude.{◌≡◌, ◌≤◌, ◌<◌, ◌+◌, ◌-◌, ◌^◌, ◌++◌, [], ◌∷◌, length, drop, min, slice_index_or, IsTrue, IfSome, IfNone, IfErr, OnOk, OnErr, ◌⊎◌, ℕ, List};
ghost use Rattle.std.specs.List.{All, AllByRecursion, Contains};
ghost use Rattle.tcp_streams.specs.Pieces.{Piece, Clash, NoClash};
ghost use Rattle.tcp_streams.specs.Reassembly.{held, KeepsToLimit};
ghost use Rattle.tcp_streams.specs.declared.fault.SegmentFault.{SegmentFault};
ghost use Rattle.tcp_streams.specs.Parts.{pieces_of, piece_of};
ghost use Rattle.tcp_streams.specs.inner.Inside.{piece, DrainsWaiting, TakesPiece, AreLater, PieceFails, LiesIn, LiesInSome};

use crate::fault::SegmentFault;
use std::alloc::Global;

/// A piece that waits: its offset in the stream, and its bytes.
#[derive(Drop)]
pub(crate) struct Part {
    pub(crate) offset: u64,
    pub(crate) bytes: Vec<u8>,
}

/// A piece that has just come: its offset in the stream, and its bytes.
#[derive(Clone, Copy)]
pub(crate) struct Fresh<'a> {
    pub(crate) offset: u64,
    pub(crate) bytes: &'a [u8],
}

// Takes a piece: gives it out with what waited for it, or keeps it, unless a piece that waits has all
// of it. A conflict is looked for first.
pub(crate) fn take_piece(
    alloc: Global,
    waiting: &mut Vec<Part>,
    count: &mut u64,
    limit: usize,
    fresh: Fresh<'_>,
    out: &mut Vec<u8>,
) -> Result<(), SegmentFault>
    requires count { count.old ≤ 2 ^ 63 }
    requires fits { fresh.offset + length fresh.bytes.now < 2 ^ 64 }
    ensures taken { OnOk result ((more : List ℕ) × (out.new.items ≡ out.old.items ++ more)
        × TakesPiece count.old (pieces_of waiting.old.items)
        (piece fresh.entry.offset fresh.entry.bytes.now)
        count.new (pieces_of waiting.new.items) more) }
    ensures later { OnOk result (AreLater count.old (pieces_of waiting.old.items)
        → AreLater count.new (pieces_of waiting.new.items)) }
    ensures agrees { OnOk result (AllByRecursion
        (NoClash (piece fresh.entry.offset fresh.entry.bytes.now))
        (pieces_of waiting.old.items)) }
    ensures within { OnOk result (KeepsToLimit limit (pieces_of waiting.old.items)
        → KeepsToLimit limit (pieces_of waiting.new.items)) }
    ensures limit { count.new ≤ 2 ^ 63 }
    ensures err { IfErr result (PieceFails count.old (pieces_of waiting.old.items) limit
        (piece fresh.entry.offset fresh.entry.bytes.now)) }
{
    if let Some(at) = conflict(waiting, fresh) {
        return Err(SegmentFault::Conflict(at));
    }
    if fresh.offset <= *count {
        give(out, count, fresh.offset, fresh.bytes)?;
        drain(waiting, count, out)
    } else if is_kept(waiting, fresh) {
        Ok(())
    } else {
        hold(alloc, waiting, limit, *count, fresh.offset, fresh.bytes)
    }
}

// The first offset at which the pieces have two values.
fn clash(mine: Fresh<'_>, yours: Fresh<'_>) -> Option<u64>
    requires { mine.offset + length mine.bytes.now < 2 ^ 64 }
    ensures some { IfSome result (λ at. Clash at (piece mine.entry.offset mine.entry.bytes.now)
        (piece yours.entry.offset yours.entry.bytes.now)) }
    ensures none { IfNone result (NoClash (piece mine.entry.offset mine.entry.bytes.now)
        (piece yours.entry.offset yours.entry.bytes.now)) }
{
    let from = mine.offset.max(yours.offset);
    let my_bytes = after(mine.bytes, from - mine.offset);
    let your_bytes = after(yours.bytes, from - yours.offset);
    let common = my_bytes.len().min(your_bytes.len());
    for k in 0..common {
        if my_bytes[k] != your_bytes[k] {
            return Some(from + k as u64);
        }
    }
    None
}

// The first offset at which the piece and one that waits have two values.
fn conflict(waiting: &[Part], fresh: Fresh<'_>) -> Option<u64>
    requires { fresh.offset + length fresh.bytes.now < 2 ^ 64 }
    ensures some { IfSome result (λ at. (q : Piece) × Contains (pieces_of waiting.now) q
        × Clash at (piece fresh.entry.offset fresh.entry.bytes.now) q) }
    ensures none { IfNone result (All (λ part.
        NoClash (piece fresh.entry.offset fresh.entry.bytes.now) (piece_of part)) waiting.now) }
{
    for part in waiting {
        let yours = Fresh {
            offset: part.offset,
            bytes: &part.bytes,
        };
        if let Some(at) = clash(fresh, yours) {
            return Some(at);
        }
    }
    None
}

// Whether one of the pieces that wait has all of the piece.
fn is_kept(waiting: &[Part], fresh: Fresh<'_>) -> bool
    requires { fresh.offset + length fresh.bytes.now < 2 ^ 64 }
    ensures { IsTrue result → LiesInSome (piece fresh.entry.offset fresh.entry.bytes.now)
        (pieces_of waiting.now) }
{
    for part in waiting {
        if is_within(fresh, part) {
            return true;
        }
    }
    false
}

// Whether a piece that waits has all of the piece.
fn is_within(fresh: Fresh<'_>, part: &Part) -> bool
    requires { fresh.offset + length fresh.bytes.now < 2 ^ 64 }
    ensures { IsTrue result → LiesIn (piece fresh.entry.offset fresh.entry.bytes.now)
        (piece_of part.now) }
{
    let end = fresh.offset + fresh.bytes.len() as u64;
    part.offset <= fresh.offset && end - part.offset <= part.bytes.len() as u64
}

// Gives out what the piece has beyond the bytes that were given out. The stream has 2^63 bytes at
// most.
pub(crate) fn give(
    out: &mut Vec<u8>,
    count: &mut u64,
    offset: u64,
    bytes: &[u8],
) -> Result<(), SegmentFault>
    requires { offset ≤ count.old }
    ensures bytes { OnOk result (out.new.items
        ≡ out.old.items ++ drop (count.old - offset) bytes.now) }
    ensures count { OnOk result (count.new
        ≡ count.old + length (drop (count.old - offset) bytes.now)) }
    ensures limit { count.old ≤ 2 ^ 63 → count.new ≤ 2 ^ 63 }
    ensures err { OnErr result ((out.new.items ≡ out.old.items) × (count.new ≡ count.old)) }
    ensures fault { IfErr result (λ e. (e ≡ SegmentFault.NoMemory) ⊎ (e ≡ SegmentFault.Long)) }
{
    let known = *count - offset;
    if known >= bytes.len() as u64 {
        return Ok(());
    }
    let fresh = &bytes[known as usize..];
    let Some(next) = count.checked_add(fresh.len() as u64) else {
        return Err(SegmentFault::Long);
    };
    if next > 9_223_372_036_854_775_808 {
        return Err(SegmentFault::Long);
    }
    out.extend_from_slice(fresh)?;
    *count = next;
    Ok(())
}

// The first piece that begins within the bytes that were given out, or right after them.
fn ready(waiting: &[Part], count: u64) -> Option<usize>
    ensures some { IfSome result (λ k. (k < length waiting.now)
        × ((d : Part) → (slice_index_or waiting.now k d).offset ≤ count)) }
    ensures none { IfNone result (All (λ part. count < part.offset) waiting.now) }
{
    waiting.iter().position(|part| part.offset <= count)
}

// Gives out the pieces whose turn it is, until the first byte of each that waits is behind a gap.
pub(crate) fn drain(
    waiting: &mut Vec<Part>,
    count: &mut u64,
    out: &mut Vec<u8>,
) -> Result<(), SegmentFault>
    requires { count.old ≤ 2 ^ 63 }
    ensures drained { OnOk result ((more : List ℕ) × (out.new.items ≡ out.old.items ++ more)
        × DrainsWaiting count.old (pieces_of waiting.old.items)
        count.new (pieces_of waiting.new.items) more
        × held (pieces_of waiting.new.items) ≤ held (pieces_of waiting.old.items)) }
    ensures later { OnOk result (All (λ part. count.new < part.offset) waiting.new.items) }
    ensures limit { count.new ≤ 2 ^ 63 }
    ensures fault { IfErr result (λ e. (e ≡ SegmentFault.NoMemory) ⊎ (e ≡ SegmentFault.Long)) }
{
    while let Some(k) = ready(waiting, *count) {
        let part = waiting.remove(k);
        give(out, count, part.offset, &part.bytes)?;
    }
    Ok(())
}

// The bytes without the first ones; none where there are no more than these.
pub(crate) fn after(bytes: &[u8], skipped: u64) -> &[u8]
    ensures { result.now ≡ drop skipped bytes.now }
{
    let skipped = skipped.min(bytes.len() as u64);
    &bytes[skipped as usize..]
}

// Keeps a piece that came before its turn. It counts for its bytes and 64 more.
pub(crate) fn hold(
    alloc: Global,
    waiting: &mut Vec<Part>,
    limit: usize,
    count: u64,
    offset: u64,
    bytes: &[u8],
) -> Result<(), SegmentFault>
    requires { count < offset }
    ensures held { OnOk result (pieces_of waiting.new.items
        ≡ pieces_of waiting.old.items ++ piece offset bytes.now ∷ []) }
    ensures within { OnOk result (min (held (pieces_of waiting.old.items)
        + (length bytes.now + 64)) (2 ^ 64 - 1) ≤ limit) }
    ensures err { IfErr result (PieceFails count (pieces_of waiting.old.items) limit
        (piece offset bytes.now)) }
{
    if cost_of(waiting)
        .saturating_add(bytes.len())
        .saturating_add(64)
        > limit
    {
        return Err(SegmentFault::Gap(count));
    }
    let mut kept = Vec::with_capacity(alloc, bytes.len())?;
    kept.extend_from_slice(bytes)?;
    match waiting.push(Part {
        offset,
        bytes: kept,
    }) {
        Ok(()) => Ok(()),
        Err(_) => Err(SegmentFault::NoMemory),
    }
}

// How much waits: of each piece its bytes and 64 more.
pub(crate) fn cost_of(waiting: &[Part]) -> usize
    ensures { result ≡ min (held (pieces_of waiting.now)) (2 ^ 64 - 1) }
{
    let mut held: usize = 0;
    for part in waiting {
        held = held.saturating_add(part.bytes.len()).saturating_add(64);
    }
    held
}
