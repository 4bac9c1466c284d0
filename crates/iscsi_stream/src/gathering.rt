//! The bytes of one PDU, gathered piece by piece.

ghost use Rattle.std.specs.Prelude.{◌≡◌, ◌≤◌, ◌<◌, ◌+◌, [], ◌++◌, length, take, max, IfOk, IfErr, OnOk, OnErr};
ghost use Rattle.std.specs.Vec.{vec_capacity};
ghost use Rattle.iscsi_pdu.specs.Meaning.{padding};
ghost use Rattle.iscsi_stream.specs.Framing.{begun_len};
ghost use Rattle.iscsi_stream.specs.Gathering.{gathered};
ghost use Rattle.iscsi_stream.specs.inner.Gathering.{HasSegmentRoom, filling, IsBody, FramerInv, GathersPdu, FillsBody, HeaderFails, GatherFails};

use crate::fault::StreamFault;
use iscsi_pdu::{HEADER_LEN, Head, pad, read_head};

/// How much of a PDU is gathered.
#[derive(Clone, Copy)]
pub(crate) enum Stage {
    /// `n` bytes of the header, fewer than 48.
    Header(usize),
    /// The whole header, which says this head and the length of the segment; and how many bytes of
    /// padding came, which are counted and not kept.
    Body { head: Head, len: u32, padded: u32 },
}

/// The bytes of a segment, and the length of the longest one for which memory was asked. It is kept
/// from PDU to PDU.
#[derive(Drop)]
pub(crate) struct Buffer {
    pub(crate) segment: Vec<u8>,
    pub(crate) room: u32,
}

// Takes bytes of the piece into the header, from this place on, and says how many.
fn fill_header(header: &mut [u8; 48], filled: usize, piece: &[u8]) -> usize
    requires { filled < 48 }
    ensures bound { result ≤ length piece.now }
    ensures taken { take (filled + result) header.new ≡ take filled header.old
        ++ take result piece.now }
    ensures room { filled + result ≤ 48 }
    ensures stops { result < length piece.now → filled + result ≡ 48 }
{
    let taken = piece.len().min(HEADER_LEN - filled);
    header[filled..filled + taken].copy_from_slice(&piece[..taken]);
    taken
}

// The head that a whole header says, and the length of its segment, for which the buffer then has
// room: what it had, or that length and no more.
fn begin(
    header: &[u8; 48],
    buffer: &mut Buffer,
    limit: u32,
    place: u64,
) -> Result<(Head, u32), StreamFault>
    requires empty { buffer.old.segment.items ≡ [] }
    requires room { HasSegmentRoom limit (vec_capacity buffer.old.segment) buffer.old.room }
    ensures ok { IfOk result (λ x. IsBody limit header.now (filling buffer.new.segment.items 0)
        buffer.new.room x.0 x.1) }
    ensures room { IfOk result (λ x. buffer.new.room ≡ max buffer.old.room x.1) }
    ensures exact { IfOk result (λ x. vec_capacity buffer.new.segment
        ≡ max (vec_capacity buffer.old.segment) x.1) }
    ensures err { IfErr result (HeaderFails header.now limit place buffer.old.room) }
    ensures same_room { OnErr result (buffer.new.room ≡ buffer.old.room) }
    ensures kept { buffer.new.segment.items ≡ [] }
    ensures holds { HasSegmentRoom limit (vec_capacity buffer.new.segment) buffer.new.room }
{
    let (head, len) = match read_head(header) {
        Ok(read) => read,
        Err(fault) => return Err(StreamFault::Head(fault, place)),
    };
    if len > limit {
        return Err(StreamFault::OverLimit(place));
    }
    buffer.segment.reserve_exact(len as usize)?;
    buffer.room = buffer.room.max(len);
    Ok((head, len))
}

// Takes bytes of the piece into a segment of this length, then into the padding, of which
// `padded` are there. Says how many it took, and how many bytes of padding are there then.
fn fill_body(segment: &mut Vec<u8>, len: u32, padded: u32, piece: &[u8]) -> (usize, u32)
    requires room { len ≤ vec_capacity segment.old }
    requires segment { length segment.old.items ≤ len }
    requires padding { padded ≤ padding len }
    requires order { 0 < padded → length segment.old.items ≡ len }
    ensures fills { FillsBody len (filling segment.old.items padded) piece.now
        result.0 (filling segment.new.items result.1) }
    ensures grows { vec_capacity segment.old ≤ vec_capacity segment.new }
{
    // Most PDUs have no segment, and none of their bytes need to be moved.
    if len == 0 {
        return (0, 0);
    }
    let data = piece.len().min(len as usize - segment.len());
    let Ok(()) = segment.extend_from_slice(&piece[..data]) else {
        unreachable!()
    };
    let more = (piece.len() - data).min((pad(len) - padded) as usize);
    (data + more, padded + more as u32)
}

// Takes bytes of the piece until the PDU is whole, and says how many.
pub(crate) fn gather(
    header: &mut [u8; 48],
    buffer: &mut Buffer,
    stage: &mut Stage,
    limit: u32,
    place: u64,
    piece: &[u8],
) -> Result<usize, StreamFault>
    requires kept { FramerInv limit header.old buffer.old.segment.items buffer.old.room stage.old }
    requires room { HasSegmentRoom limit (vec_capacity buffer.old.segment) buffer.old.room }
    ensures ok { IfOk result (λ n. GathersPdu limit
        (gathered header.old buffer.old.segment.items stage.old)
        piece.now n (gathered header.new buffer.new.segment.items stage.new)) }
    ensures kept { OnOk result (FramerInv limit header.new buffer.new.segment.items
        buffer.new.room stage.new) }
    ensures room { OnOk result (buffer.new.room ≡ max buffer.old.room
        (begun_len (gathered header.new buffer.new.segment.items stage.new))) }
    ensures err { IfErr result (GatherFails limit place buffer.old.room
        (gathered header.old buffer.old.segment.items stage.old) piece.now) }
    ensures same_room { OnErr result (buffer.new.room ≡ buffer.old.room) }
    ensures holds { HasSegmentRoom limit (vec_capacity buffer.new.segment) buffer.new.room }
{
    match stage {
        Stage::Body { len, padded, .. } => {
            let (taken, now) = fill_body(&mut buffer.segment, *len, *padded, piece);
            *padded = now;
            Ok(taken)
        }
        Stage::Header(filled) => {
            let filled = *filled;
            let taken = fill_header(header, filled, piece);
            if filled + taken < HEADER_LEN {
                *stage = Stage::Header(filled + taken);
                return Ok(taken);
            }
            let (head, len) = begin(header, buffer, limit, place)?;
            let (more, padded) = fill_body(&mut buffer.segment, len, 0, &piece[taken..]);
            *stage = Stage::Body { head, len, padded };
            Ok(taken + more)
        }
    }
}
