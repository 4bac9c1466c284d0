//! What PERSISTENT RESERVE IN asks.

ghost use Rattle.std.specs.Prelude.{◌≡◌};
ghost use Rattle.scsi_reservations.specs.Blocks.{report_of};

use crate::refusal::Refusal;
use scsi_cdb::layout::bits;

/// The service actions of PERSISTENT RESERVE IN (SPC-4, section 6.15).
#[derive(Clone, Copy, Debug, PartialEq, Eq)]
pub enum Report {
    /// 00: the keys of all who are registered.
    Keys,
    /// 01: the reservation.
    Reservation,
    /// 02: what can be reserved, and what lasts.
    Capabilities,
    /// 03: who is registered with which key, and who holds the reservation.
    FullStatus,
}

impl Report {
    /// What a block of PERSISTENT RESERVE IN asks; 24/00 for an action that is not taken.
    pub fn read(block: &[u8; 16]) -> Result<Report, Refusal>
        ensures { result ≡ report_of block.now }
    {
        match bits(block, 1, 0x1f) {
            0x00 => Ok(Report::Keys),
            0x01 => Ok(Report::Reservation),
            0x02 => Ok(Report::Capabilities),
            0x03 => Ok(Report::FullStatus),
            _ => Err(Refusal::InvalidField),
        }
    }
}
