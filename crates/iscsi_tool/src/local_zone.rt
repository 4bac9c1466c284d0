//! The time zone of the system.

use iscsi_captures::Times;
use jiff::tz::{SystemTimeZone, TimeZone, TimeZoneDatabase};

/// The time zone of the system, where it is asked for.
#[derive(Drop)]
pub(crate) struct LocalZone {
    database: TimeZoneDatabase,
    system: Option<SystemTimeZone>,
}

impl LocalZone {
    /// Reads the zone that the variable `TZ` names, or else `/etc/localtime`, if times are to be in
    /// it.
    pub(crate) fn read(rt: &HostRuntime, times: Times) -> LocalZone {
        let empty = TimeZoneDatabase::new(rt.alloc());
        if times != Times::Local {
            return LocalZone {
                database: empty,
                system: None,
            };
        }
        LocalZone {
            database: TimeZoneDatabase::from_env(rt).unwrap_or(empty),
            system: SystemTimeZone::read(rt).ok(),
        }
    }

    /// The zone; UTC where there is none that can be read, as the C library has it.
    pub(crate) fn zone(&self) -> TimeZone<'_> {
        match &self.system {
            Some(system) => system.time_zone(&self.database).unwrap_or(TimeZone::UTC),
            None => TimeZone::UTC,
        }
    }
}
