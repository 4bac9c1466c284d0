//! The data of INQUIRY (SPC-4, sections 6.6 and 7.8; SBC-3, section 6.5).

ghost use Rattle.std.specs.Prelude.{◌≡◌, ◌-◌, option_map};
ghost use Rattle.scsi_unit.specs.Pages.{limits_page, name_page, page_list, serial_page, standard_inquiry, thin_capacity, vital_page};
ghost use Rattle.scsi_unit.specs.Telling.{inquiry_data};

use crate::data::{Data, data, joined};
use crate::unit::LogicalUnit;
use scsi_cdb::capacity16;

/// Which pages there are.
const PAGE_LIST: &[u8] = b"\0\0\0\x05\0\x80\x83\xb0\xb1";

/// Which pages there are of a thin unit.
const THIN_PAGE_LIST: &[u8] = b"\0\0\0\x06\0\x80\x83\xb0\xb1\xb2";

/// At most 8,192 blocks in one transfer, and one in a COMPARE AND WRITE.
const LIMITS: [u8; 64] =
    *b"\0\xb0\0\x3c\0\x01\0\0\0\0\x20\0\0\0\0\0\0\0\0\0\0\0\0\0\0\0\0\0\0\0\0\0\0\0\0\0\0\0\0\0\0\0\0\0\0\0\0\0\0\0\0\0\0\0\0\0\0\0\0\0\0\0\0\0";

/// At most 8,192 blocks also in an UNMAP, which has one range, and in a WRITE SAME, which names one block
/// at least and gives back any number.
const THIN_LIMITS: [u8; 64] =
    *b"\0\xb0\0\x3c\x01\x01\0\0\0\0\x20\0\0\0\0\0\0\0\0\0\0\0\x20\0\0\0\0\x01\0\0\0\x01\0\0\0\0\0\0\0\0\0\0\x20\0\0\0\0\0\0\0\0\0\0\0\0\0\0\0\0\0\0\0\0\0";

/// A thin unit takes blocks back by UNMAP and by WRITE SAME(16) and (10), and then they read as zeros.
const PROVISIONING: &[u8] = b"\0\xb2\0\x04\0\xe4\x02\0";

/// The medium doesn't rotate.
const MEDIUM: [u8; 64] =
    *b"\0\xb1\0\x3c\0\x01\0\0\0\0\0\0\0\0\0\0\0\0\0\0\0\0\0\0\0\0\0\0\0\0\0\0\0\0\0\0\0\0\0\0\0\0\0\0\0\0\0\0\0\0\0\0\0\0\0\0\0\0\0\0\0\0\0\0";

impl LogicalUnit {
    /// The data of INQUIRY by its bit EVPD and its page, where the unit is there or not; `None` where
    /// there is no such page.
    pub(crate) fn inquiry(&self, present: bool, vital: bool, page: u8) -> Option<Data>
        ensures { option_map (λ bytes. bytes.items) result
            ≡ inquiry_data self.now present vital page }
    {
        if vital {
            return self.vital_page(page);
        }
        match page {
            0x00 => Some(standard(present)),
            _ => None,
        }
    }

    // A page of vital product data by its code.
    fn vital_page(&self, page: u8) -> Option<Data>
        ensures { option_map (λ bytes. bytes.items) result ≡ vital_page self.now page }
    {
        match page {
            0x00 => Some(self.page_list()),
            0x80 => Some(self.serial_page()),
            0x83 => Some(self.name_page()),
            0xb0 => Some(self.limits_page()),
            0xb1 => Some(data(&MEDIUM)),
            0xb2 if self.is_thin() => Some(data(PROVISIONING)),
            _ => None,
        }
    }

    // Which pages there are.
    fn page_list(&self) -> Data
        ensures { result.items ≡ page_list self.now.thin }
    {
        if self.is_thin() {
            data(THIN_PAGE_LIST)
        } else {
            data(PAGE_LIST)
        }
    }

    // The page of the limits.
    fn limits_page(&self) -> Data
        ensures { result.items ≡ limits_page self.now.thin }
    {
        if self.is_thin() {
            data(&THIN_LIMITS)
        } else {
            data(&LIMITS)
        }
    }

    // The page of the serial number.
    fn serial_page(&self) -> Data
        ensures { result.items ≡ serial_page self.now.serial }
    {
        let serial = self.serial();
        joined(&[0, 0x80, 0, serial.len() as u8], serial)
    }

    // The page of the names.
    fn name_page(&self) -> Data
        ensures { result.items ≡ name_page self.now.name self.now.serial }
    {
        let designators = self.designators();
        let [high, low] = (designators.len() as u16).to_be_bytes();
        joined(&[0, 0x83, high, low], designators.as_slice())
    }
}

/// READ CAPACITY(16) of a thin unit of `n` blocks.
pub(crate) fn thin_capacity(blocks: u64) -> Data
    ensures { result.items ≡ thin_capacity (blocks - 1) }
{
    let mut bytes = capacity16(blocks.saturating_sub(1));
    bytes[14] = 0xc0;
    data(&bytes)
}

// Standard INQUIRY data, of a disk or of a unit that is not there.
fn standard(present: bool) -> Data
    ensures { result.items ≡ standard_inquiry present }
{
    let mut bytes =
        *b"\0\0\x06\x12\x5b\0\0\x02LANTHOVRISCSI DISK      0001\0\0\0\0\0\0\0\0\0\0\0\0\0\0\0\0\0\0\0\0\0\0\x09\x60\x04\x60\x04\xc0\0\0\0\0\0\0\0\0\0\0\0\0\0\0\0\0\0\0\0\0\0\0\0\0\0\0\0\0\0\0\0\0";
    if !present {
        bytes[0] = 0x7f;
    }
    data(&bytes)
}
