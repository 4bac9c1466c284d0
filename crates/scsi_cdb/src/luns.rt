//! The data of REPORT LUNS (SPC-4, section 6.33).

ghost use Rattle.std.specs.Prelude.{◌≡◌, ◌≤◌, option_map, length};
ghost use Rattle.scsi_cdb.specs.ParameterData.{luns};

use arrayvec::ArrayVec;

/// These bytes as a short list.
pub(crate) fn short<const N: usize>(bytes: &[u8]) -> ArrayVec<u8, N>
    requires { length bytes.now ≤ N }
    ensures { result.items ≡ bytes.now }
{
    let mut list = ArrayVec::new();
    let _ = list.try_extend_from_slice(bytes);
    list
}

/// The data of REPORT LUNS by the code in SELECT REPORT (SPC-4, section 6.33): the length of the
/// list in bytes, then the list.
///
/// Unit 0 is in the lists 00 and 02, the list 01 of well known units is empty, and any other code
/// gives `None`.
pub fn report_luns(select: u8) -> Option<ArrayVec<u8, 16>>
    ensures { option_map (λ v. v.items) result ≡ luns select }
{
    match select {
        0x00 | 0x02 => Some(short(&[0, 0, 0, 8, 0, 0, 0, 0, 0, 0, 0, 0, 0, 0, 0, 0])),
        0x01 => Some(short(&[0; 8])),
        _ => None,
    }
}
