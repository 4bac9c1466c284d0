//! Why a command failed, and its sense data (SPC-4, section 4.5).

ghost use Rattle.std.specs.Prelude.{◌≡◌};
ghost use Rattle.scsi_cdb.specs.Sense.{information_of, sense_bytes, triple_of};

/// Why a command ended in CHECK CONDITION, each by its sense key and additional sense code.
#[derive(Clone, Copy, Debug, PartialEq, Eq)]
pub enum Sense {
    /// ILLEGAL REQUEST, INVALID COMMAND OPERATION CODE.
    InvalidCode,
    /// ILLEGAL REQUEST, LOGICAL BLOCK ADDRESS OUT OF RANGE.
    OutOfRange,
    /// ILLEGAL REQUEST, INVALID FIELD IN CDB.
    InvalidField,
    /// ILLEGAL REQUEST, LOGICAL UNIT NOT SUPPORTED.
    NoUnit,
    /// MEDIUM ERROR, UNRECOVERED READ ERROR.
    ReadError,
    /// MEDIUM ERROR, WRITE ERROR.
    WriteError,
    /// DATA PROTECT, WRITE PROTECTED.
    WriteProtected,
    /// DATA PROTECT, SPACE ALLOCATION FAILED WRITE PROTECT.
    NoSpace,
    /// ILLEGAL REQUEST, INVALID FIELD IN PARAMETER LIST.
    InvalidParameter,
    /// ILLEGAL REQUEST, PARAMETER LIST LENGTH ERROR.
    ParameterLength,
    /// MISCOMPARE, MISCOMPARE DURING VERIFY OPERATION, with the place of the first byte that differs.
    Miscompare(u32),
}

impl Sense {
    /// The sense key, the additional sense code and its qualifier.
    pub fn triple(self) -> (u8, u8, u8)
        ensures { result ≡ triple_of self }
    {
        match self {
            Sense::InvalidCode => (0x5, 0x20, 0x00),
            Sense::OutOfRange => (0x5, 0x21, 0x00),
            Sense::InvalidField => (0x5, 0x24, 0x00),
            Sense::NoUnit => (0x5, 0x25, 0x00),
            Sense::ReadError => (0x3, 0x11, 0x00),
            Sense::WriteError => (0x3, 0x0c, 0x00),
            Sense::WriteProtected => (0x7, 0x27, 0x00),
            Sense::NoSpace => (0x7, 0x27, 0x07),
            Sense::InvalidParameter => (0x5, 0x26, 0x00),
            Sense::ParameterLength => (0x5, 0x1a, 0x00),
            Sense::Miscompare(_) => (0xe, 0x1d, 0x00),
        }
    }

    // The field INFORMATION, if it is valid (SPC-4, section 4.5.3).
    fn information(self) -> Option<u32>
        ensures { result ≡ information_of self }
    {
        match self {
            Sense::Miscompare(place) => Some(place),
            _ => None,
        }
    }

    /// The sense data, in fixed format (SPC-4, section 4.5.3).
    pub fn bytes(self) -> [u8; 18]
        ensures { result ≡ sense_bytes self }
    {
        let (key, code, qualifier) = self.triple();
        let valid = if self.information().is_some() {
            0xf0
        } else {
            0x70
        };
        let [a, b, c, d] = self.information().unwrap_or(0).to_be_bytes();
        [
            valid, 0, key, a, b, c, d, 0x0a, 0, 0, 0, 0, code, qualifier, 0, 0, 0, 0,
        ]
    }
}
