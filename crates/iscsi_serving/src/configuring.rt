//! What the target of a session is configured with.

ghost use Rattle.std.specs.Prelude.{◌≡◌, IfOk, OnOk};
ghost use Rattle.iscsi_login.specs.Name.{IsName};
ghost use Rattle.iscsi_login.specs.Negotiation.{ArePreferencesInRange};
ghost use Rattle.iscsi_serving.specs.Configuring.{settings_of};

use iscsi_login::Preferences;
use iscsi_target::Config;
use std::alloc::{AllocError, Global};

/// The tag of the target's portal group.
const GROUP: u16 = 1;

/// What the session of this number is configured with, if everybody may log in: portal group 1, and the
/// number as its TSIH. If name, number and preferences are in range, the only error is that memory ran
/// out.
pub fn configuration(
    alloc: Global,
    name: &[u8],
    number: u16,
    preferences: Preferences,
) -> Result<Config, AllocError>
    ensures settings { IfOk result (λ config. config ≡ settings_of name.now number preferences) }
    ensures ok { OnOk result (IsName name.now × ArePreferencesInRange preferences) }
{
    match Config::new(alloc, name, GROUP, number, preferences) {
        Ok(config) => Ok(config),
        Err(_) => Err(AllocError),
    }
}
