//! The data of INQUIRY (SPC-4, sections 6.6 and 7.8).

ghost use Rattle.std.specs.Prelude.{◌≡◌, option_map};
ghost use Rattle.scsi_cdb.specs.ParameterData.{plain_inquiry_data, vpd};

use crate::luns::short;
use arrayvec::ArrayVec;

/// Standard INQUIRY data (SPC-4, section 6.6): of a disk, or of a unit that is not there. The names
/// are own rules.
pub fn inquiry_bytes(present: bool) -> [u8; 36]
    ensures { result ≡ plain_inquiry_data present }
{
    let mut bytes = *b"\0\0\x06\x12\x1f\0\0\x02VERIDISKISCSI DISK      0001";
    if !present {
        bytes[0] = 0x7f;
    }
    bytes
}

/// A page of vital product data by its code (SPC-4, section 7.8), or `None` for a code other than
/// 00, 80 and 83.
/// The names in the pages are own rules.
pub fn vpd_bytes(page: u8) -> Option<ArrayVec<u8, 24>>
    ensures { option_map (λ v. v.items) result ≡ vpd page }
{
    match page {
        0x00 => Some(short(b"\0\0\0\x03\0\x80\x83")),
        0x80 => Some(short(b"\0\x80\0\x0800000001")),
        0x83 => Some(short(b"\0\x83\0\x14\x02\x01\0\x10VERIDISK00000001")),
        _ => None,
    }
}
