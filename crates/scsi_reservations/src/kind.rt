//! Types of reservations, and what commands do to blocks.

ghost use Rattle.std.specs.Prelude.{◌≡◌};
ghost use Rattle.scsi_reservations.specs.Reservations.{is_exclusive, is_of_all, is_of_registrants, type_of_code, type_code};

/// The type of a reservation (SPC-4, section 6.15.3.4).
#[derive(Clone, Copy, Debug, PartialEq, Eq)]
pub enum Kind {
    /// 1: its holder alone may change blocks.
    WriteExclusive,
    /// 3: its holder alone may read or change blocks.
    ExclusiveAccess,
    /// 5: who is registered may change blocks.
    WriteExclusiveRegistrants,
    /// 6: who is registered may read or change blocks.
    ExclusiveAccessRegistrants,
    /// 7: the same as 5, and each who is registered holds it.
    WriteExclusiveAll,
    /// 8: the same as 6, and each who is registered holds it.
    ExclusiveAccessAll,
}

/// What a command does to blocks, as reservations see it.
#[derive(Clone, Copy, Debug, PartialEq, Eq)]
pub enum Access {
    /// It neither reads nor changes one.
    Free,
    /// It reads some.
    Reads,
    /// It changes some, or makes changes last.
    Changes,
}

impl Kind {
    /// Its code.
    pub fn code(self) -> u8
        ensures { result ≡ type_code self }
    {
        match self {
            Kind::WriteExclusive => 1,
            Kind::ExclusiveAccess => 3,
            Kind::WriteExclusiveRegistrants => 5,
            Kind::ExclusiveAccessRegistrants => 6,
            Kind::WriteExclusiveAll => 7,
            Kind::ExclusiveAccessAll => 8,
        }
    }

    /// The type with a code, if there is one.
    pub fn of_code(code: u8) -> Option<Kind>
        ensures { result ≡ type_of_code code }
    {
        match code {
            1 => Some(Kind::WriteExclusive),
            3 => Some(Kind::ExclusiveAccess),
            5 => Some(Kind::WriteExclusiveRegistrants),
            6 => Some(Kind::ExclusiveAccessRegistrants),
            7 => Some(Kind::WriteExclusiveAll),
            8 => Some(Kind::ExclusiveAccessAll),
            _ => None,
        }
    }

    // Each port that is registered holds it.
    pub(crate) fn is_of_all(self) -> bool
        ensures { result ≡ is_of_all self }
    {
        matches!(self, Kind::WriteExclusiveAll | Kind::ExclusiveAccessAll)
    }

    // Each port that is registered may pass.
    pub(crate) fn is_of_registrants(self) -> bool
        ensures { result ≡ is_of_registrants self }
    {
        !matches!(self, Kind::WriteExclusive | Kind::ExclusiveAccess)
    }

    // It keeps reads out, too.
    pub(crate) fn is_exclusive(self) -> bool
        ensures { result ≡ is_exclusive self }
    {
        matches!(
            self,
            Kind::ExclusiveAccess | Kind::ExclusiveAccessRegistrants | Kind::ExclusiveAccessAll
        )
    }
}
