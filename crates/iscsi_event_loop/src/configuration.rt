//! What the target of a session is configured with, beside its name, its number and its preferences.

ghost use Rattle.std.specs.Prelude.{◌≡◌, IfNone, IfOk, IfSome, OnOk};
ghost use Rattle.std.specs.Option.{option_map};
ghost use Rattle.iscsi_portal.specs.Portal.{IsPortal};
ghost use Rattle.iscsi_login.specs.Name.{IsName};
ghost use Rattle.iscsi_target_session.specs.Configured.{IsDataInLimit};
ghost use Rattle.scsi_unit.specs.LogicalUnit.{IsSerial};
ghost use Rattle.iscsi_event_loop.specs.inner.Serving.{limiting, telling, settings_with_portal};

use iscsi_options::UnitOptions;
use iscsi_portal::Portal;
use iscsi_target::Config;
use iscsi_target_session::DataInLimit;
use scsi_unit::LogicalUnit;
use std::alloc::{AllocError, Global};

/// A configuration that tells initiators to use the portal of this address, if there is one. If its bytes are
/// an address, the only error is that memory ran out; the configuration is dropped then.
pub fn with_address(
    alloc: Global,
    config: Config,
    portal: Option<&[u8]>,
) -> Result<Config, AllocError>
    ensures told { IfOk result
        (λ made. made ≡ settings_with_portal (option_map (λ portal. portal.now) portal.entry)
        config) }
    ensures ok { OnOk result (IfSome portal.entry (λ portal. IsPortal portal.now)) }
{
    let Some(bytes) = portal else {
        return Ok(config);
    };
    match Portal::new(alloc, bytes) {
        Ok(portal) => Ok(config.with_portal(portal)),
        Err(_) => Err(AllocError),
    }
}

/// The same, whose disk tells more of itself, if it does, with this target's name and this serial number; none
/// where one of them is none, and the configuration is dropped then.
pub fn with_unit(
    config: Config,
    name: &[u8],
    serial: &[u8],
    unit: Option<UnitOptions>,
) -> Option<Config>
    ensures telling { IfSome result (λ made. made ≡ telling name.now serial.now unit config) }
    ensures none { IfNone result (¬ (IsName name.now × IsSerial serial.now)) }
{
    let Some(told) = unit else {
        return Some(config);
    };
    let unit = LogicalUnit::new(name, serial, told.write_protected)?;
    let unit = if told.thin { unit.with_thin() } else { unit };
    let unit = if told.write_back {
        unit.with_write_back()
    } else {
        unit
    };
    Some(config.with_unit(unit))
}

/// The same, whose Data-In have so many bytes at most, if a number is said; none where it is no multiple of 512
/// from 512 on, and the configuration is dropped then.
pub fn with_data_in(config: Config, most: Option<u32>) -> Option<Config>
    ensures limit { IfSome result (λ made. made ≡ limiting most config) }
    ensures none { IfNone result (IfSome most (λ bytes. ¬ IsDataInLimit bytes)) }
{
    match most {
        Some(bytes) => Some(config.with_longest_data_in(DataInLimit::of_bytes(bytes)?)),
        None => Some(config),
    }
}
