//! Laws of headers and whole PDUs, over the definitions alone, and the round trip of a header.

ghost use Rattle.std.specs.Prelude.{◌≡◌, ◌↔◌, ◌<◌, ◌≤◌, ◌^◌, ℕ, List, Ok, true, bit_and, length, slice_index};
ghost use Rattle.std.specs.Bool.{OnTrue};
ghost use Rattle.iscsi_pdu.specs.declared.head.Head.{Head};
ghost use Rattle.scsi_cdb.specs.Layout.{RowsHold};
ghost use Rattle.iscsi_pdu.specs.FreeBits.{are_free};
ghost use Rattle.iscsi_pdu.specs.Meaning.{opcode, header, is_login, ones, whole, AreBytes, HeadFits, IsWritable, Means};

use crate::{Head, HeadFault, read_head, write_head};

/// A whole PDU has one meaning.
pub fn one_meaning()
    ensures { (b : List ℕ) (g h : Head) (c d : List ℕ) → Means b g c → Means b h d
        → (g ≡ h) × (c ≡ d) }
{}

/// The canonical bytes of a head and its data mean them.
pub fn canonical_meaning()
    ensures { (h : Head) (d : List ℕ) → IsWritable h (length d) → Means (whole h d) h d }
{}

/// What bytes mean can be written.
pub fn meaning_is_writable()
    ensures { (b : List ℕ) (h : Head) (d : List ℕ) → AreBytes b → Means b h d
        → IsWritable h (length d) }
{}

/// The canonical bytes of what a PDU means mean it again, and are as long as the PDU.
pub fn canonical_again()
    ensures means { (b : List ℕ) (h : Head) (d : List ℕ) → AreBytes b → Means b h d
        → Means (whole h d) h d }
    ensures length { (b : List ℕ) (h : Head) (d : List ℕ) → AreBytes b → Means b h d
        → length (whole h d) ≡ length b }
{}

/// Two PDUs mean the same exactly if their canonical bytes are equal.
pub fn same_meaning()
    ensures { (a b : List ℕ) (g h : Head) (c d : List ℕ) → AreBytes a → AreBytes b
        → Means a g c → Means b h d → ((g ≡ h) × (c ≡ d)) ↔ (whole g c ≡ whole h d) }
{}

/// A header that is written has 0 in each free bit, and 1 where the table of its kind has ones (RFC
/// 7143, section 11). A bit is free if no field with a value has the bit.
pub fn free_bits()
    ensures zero { (h : Head) (len n mask : ℕ) → IsWritable h len → are_free n mask h len ≡ true
        → bit_and (slice_index (header h len) n) mask ≡ 0 }
    ensures ones { (h : Head) (len : ℕ) → IsWritable h len → RowsHold (header h len) (ones h) }
{}

/// Reads the header of a head, and gives the head back.
pub fn read_written(head: &Head, len: u32) -> Result<(Head, u32), HeadFault>
    requires fits { HeadFits head.now }
    requires short { len < 2 ^ 24 }
    requires login { OnTrue (is_login (opcode head.now)) (len ≤ 8192) }
    ensures { result ≡ Ok (head.now, len) }
{
    read_head(&write_head(head, len))
}
