//! The data of MODE SENSE (SPC-4, sections 6.11 and 6.12).

ghost use Rattle.std.specs.Prelude.{◌≡◌, ◌≤◌, length, option_map, IfSome};
ghost use Rattle.scsi_unit.specs.Modes.{asked_page, behind_long_header, behind_short_header, caching_page, device_specific, mode_pages};

use crate::data::{Data, data, joined};
use crate::unit::LogicalUnit;
use scsi_cdb::layout::{bits, u8_at};

/// The caching page, where WCE is not set.
const CACHING: [u8; 20] = *b"\x08\x12\0\0\0\0\0\0\0\0\0\0\0\0\0\0\0\0\0\0";

/// The control page.
const CONTROL: [u8; 12] = *b"\x0a\x0a\0\0\0\0\0\0\0\0\0\0";

/// The bit WCE of the third byte of the caching page: there is a write cache.
const ENABLED: u8 = 0x04;

/// Which values are changeable ones.
const CHANGEABLE: u8 = 1;

/// Which values are saved ones, of which there are none.
const SAVED: u8 = 3;

/// The bit WP of the device-specific byte: the unit takes no write.
const WRITE_PROTECTED: u8 = 0x80;

/// The bit DPOFUA of the device-specific byte: the unit takes DPO and FUA.
const TAKES_FUA: u8 = 0x10;

// The caching page, where WCE is set or not.
fn caching_page(enabled: bool) -> [u8; 20]
    ensures { result ≡ caching_page enabled }
{
    let mut page = CACHING;
    if enabled {
        page[2] = ENABLED;
    }
    page
}

impl LogicalUnit {
    /// The pages that a block of MODE SENSE(6) or (10) asks for; `None` where there are none.
    pub(crate) fn mode_pages(&self, block: &[u8; 16]) -> Option<Data>
        ensures pages { option_map (λ bytes. bytes.items) result
            ≡ mode_pages self.now (asked_page block.now) }
        ensures few { IfSome result (λ bytes. length bytes.items ≤ 32) }
    {
        let values = bits(block, 2, 0xc0);
        if values == SAVED {
            return None;
        }
        let caching = caching_page(self.is_write_back() && values != CHANGEABLE);
        match (bits(block, 2, 0x3f), u8_at(block, 3)) {
            (0x08, 0x00) => Some(data(&caching)),
            (0x0a, 0x00) => Some(data(&CONTROL)),
            (0x3f, 0x00 | 0xff) => Some(joined(&caching, &CONTROL)),
            _ => None,
        }
    }

    /// Pages behind the header of MODE SENSE(6).
    pub(crate) fn behind_short_header(&self, pages: &[u8]) -> Data
        requires { length pages.now ≤ 32 }
        ensures { result.items ≡ behind_short_header self.now pages.now }
    {
        let length = pages.len() as u8 + 3;
        joined(&[length, 0, self.device_specific(), 0], pages)
    }

    /// Pages behind the header of MODE SENSE(10).
    pub(crate) fn behind_long_header(&self, pages: &[u8]) -> Data
        requires { length pages.now ≤ 32 }
        ensures { result.items ≡ behind_long_header self.now pages.now }
    {
        let length = pages.len() as u8 + 6;
        joined(&[0, length, 0, self.device_specific(), 0, 0, 0, 0], pages)
    }

    // The byte of a header that says whether the unit takes no write, and that it takes FUA.
    fn device_specific(&self) -> u8
        ensures { result ≡ device_specific self.now }
    {
        if self.is_write_protected() {
            WRITE_PROTECTED + TAKES_FUA
        } else {
            TAKES_FUA
        }
    }
}
