//! Names of initiators and targets (RFC 7143, section 4.2.7).

ghost use Rattle.std.specs.Prelude.{◌↔◌, IsTrue};
ghost use Rattle.iscsi_login.specs.Name.{IsName};

/// Whether an initiator or a target may have this name: 1 to 223 bytes, each of `!` to `~` (RFC
/// 7143, section 4.2.7, has the length; the bytes are own rule).
pub fn is_name(name: &[u8]) -> bool
    ensures name { IsTrue result ↔ IsName name.now }
{
    !name.is_empty() && name.len() <= 223 && name.iter().all(|byte| (b'!'..=b'~').contains(byte))
}
