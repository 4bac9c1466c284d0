//! Sequences of Data-Out PDUs (RFC 7143, section 11.7).

ghost use Rattle.std.specs.Prelude.{◌≡◌, ◌<◌, ◌+◌, ◌^◌, ◌++◌, length, take, OnOk, OnErr};
ghost use Rattle.iscsi_pdu.specs.Meaning.{HeadFits};
ghost use Rattle.iscsi_pdu.specs.declared.head.Head.TheVariants as heads;
ghost use Rattle.iscsi_stream.specs.Canonical.{canon};
ghost use Rattle.iscsi_initiator.specs.Full.{data_outs};
ghost use Rattle.iscsi_stream.specs.Pieces.{chunks};

use iscsi_pdu::{DataOut, Head};
use iscsi_stream::write_pdu;
use std::alloc::AllocError;

/// Appends one sequence of Data-Out PDUs that carry the bytes, in pieces of at most `most`, behind
/// the first one's offset and DataSN. When out of memory, `out` is unchanged.
pub fn write_sequence(
    first: DataOut,
    most: u32,
    bytes: &[u8],
    out: &mut Vec<u8>,
) -> Result<(), AllocError>
    requires fits { HeadFits (heads.DataOut first) }
    requires some { 0 < most }
    requires short { most < 2 ^ 24 }
    requires within { first.buffer_offset + length bytes.now < 2 ^ 32 }
    ensures ok { OnOk result
        (out.new.items ≡ out.old.items ++ canon (data_outs first (chunks most bytes.now))) }
    ensures err { OnErr result (out.new.items ≡ out.old.items) }
{
    let held = out.len();
    let result = write_pieces(first, most, bytes, out);
    if result.is_err() {
        out.truncate(held);
    }
    result
}

// The same, of which a front may stand where memory ran out.
fn write_pieces(
    first: DataOut,
    most: u32,
    bytes: &[u8],
    out: &mut Vec<u8>,
) -> Result<(), AllocError>
    requires fits { HeadFits (heads.DataOut first) }
    requires some { 0 < most }
    requires short { most < 2 ^ 24 }
    requires within { first.buffer_offset + length bytes.now < 2 ^ 32 }
    ensures ok { OnOk result
        (out.new.items ≡ out.old.items ++ canon (data_outs first (chunks most bytes.now))) }
    ensures front { take (length out.old.items) out.new.items ≡ out.old.items }
{
    let mut next = first;
    let mut rest = bytes;
    while !rest.is_empty() {
        let (piece, more) = rest.split_at((most as usize).min(rest.len()));
        let head = Head::DataOut(DataOut {
            is_final: more.is_empty(),
            ..next
        });
        write_pdu(&head, piece, out)?;
        next.data_sn = next.data_sn.wrapping_add(1);
        next.buffer_offset += piece.len() as u32;
        rest = more;
    }
    Ok(())
}
