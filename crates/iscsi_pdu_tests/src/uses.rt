//! What another program does with `iscsi_pdu`.

ghost use Rattle.std.specs.Prelude.{ℕ, IfOk};
ghost use Rattle.iscsi_pdu.specs.declared.head.Head.{Head};
ghost use Rattle.iscsi_pdu.specs.Meaning.{IsHeader};

use iscsi_pdu::{HeadFault, read_head, write_head};

/// The canonical header of a header, which means the same.
pub fn canonical_header(header: &[u8; 48]) -> Result<[u8; 48], HeadFault>
    ensures means { IfOk result (λ canonical. (head : Head) × (len : ℕ)
        × IsHeader header.now head len × IsHeader canonical head len) }
{
    let (head, len) = read_head(header)?;
    Ok(write_head(&head, len))
}
