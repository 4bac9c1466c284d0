//! INQUIRY (SPC-4, section 6.6).

ghost use Rattle.std.specs.Prelude.{◌≡◌, ◌==◌, None, Some, option_map, take, if◌then◌else◌};
ghost use Rattle.scsi_cdb.specs.ParameterData.{plain_inquiry_data, vpd};

use super::at_most;
use arrayvec::ArrayVec;
use scsi_cdb::{inquiry_bytes, vpd_bytes};

/// A page of vital product data; None for one that there is not.
pub(super) fn told_page(page: u8, allocation_length: u16) -> Option<ArrayVec<u8, 36>>
    ensures { option_map (λ v. v.items) result ≡ option_map (take allocation_length) (vpd page) }
{
    let data = vpd_bytes(page)?;
    Some(at_most(data.as_slice(), usize::from(allocation_length)))
}

/// The standard data, where the unit is there or not; None where a page is named.
pub(super) fn told_standard(
    present: bool,
    page: u8,
    allocation_length: u16,
) -> Option<ArrayVec<u8, 36>>
    ensures { option_map (λ v. v.items) result
        ≡ if page == 0 then Some (take allocation_length (plain_inquiry_data present)) else None }
{
    (page == 0).then(|| at_most(&inquiry_bytes(present), usize::from(allocation_length)))
}
