//! The data of READ CAPACITY (SBC-3, sections 5.15 and 5.16).

ghost use Rattle.std.specs.Prelude.{◌≡◌};
ghost use Rattle.scsi_cdb.specs.ParameterData.{capacity10_of, capacity16_of};

/// The data of READ CAPACITY(10) for a disk with this last block (SBC-3, section 5.15).
///
/// A last block of ffffffff or above shows as ffffffff: READ CAPACITY(16) tells which. A block has
/// 512 bytes.
pub fn capacity10(last: u64) -> [u8; 8]
    ensures { result ≡ capacity10_of last }
{
    let shown = u32::try_from(last).unwrap_or(u32::MAX);
    let [a, b, c, d] = shown.to_be_bytes();
    [a, b, c, d, 0, 0, 2, 0]
}

/// The data of READ CAPACITY(16) for a disk with this last block (SBC-3, section 5.16). A block has
/// 512 bytes.
pub fn capacity16(last: u64) -> [u8; 32]
    ensures { result ≡ capacity16_of last }
{
    let mut bytes = [0; 32];
    bytes[..8].copy_from_slice(&last.to_be_bytes());
    bytes[10] = 2;
    bytes
}
