//! REPORT LUNS (SPC-4, section 6.33).

ghost use Rattle.std.specs.Prelude.{◌≡◌, option_map, take};
ghost use Rattle.scsi_cdb.specs.ParameterData.{luns};

use super::at_most;
use arrayvec::ArrayVec;
use scsi_cdb::report_luns;

/// The report of the units of this kind; None for a report that there is not.
pub(super) fn told(select: u8, allocation_length: u32) -> Option<ArrayVec<u8, 36>>
    ensures { option_map (λ v. v.items) result ≡ option_map (take allocation_length) (luns select) }
{
    let data = report_luns(select)?;
    Some(at_most(data.as_slice(), allocation_length as usize))
}
