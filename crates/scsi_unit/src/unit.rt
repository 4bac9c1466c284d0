//! A logical unit, by what it tells of itself.

ghost use Rattle.std.specs.Prelude.{◌≡◌, ◌↔◌, IsTrue, IfNone, IfSome, false, true};
ghost use Rattle.iscsi_login.specs.Name.{IsName};
ghost use Rattle.scsi_unit.specs.LogicalUnit.{IsInSerial, IsSerial};

use arrayvec::ArrayVec;
use iscsi_login::is_name;
use std::marker::Model;

/// The most bytes of a serial number (own rule).
pub const LONGEST_SERIAL: usize = 16;

/// The most bytes of a target's name (RFC 7143, section 4.2.7).
const LONGEST_NAME: usize = 223;

/// A logical unit that tells its own serial number, its names, its limits and its modes.
#[derive(Drop)]
pub struct LogicalUnit {
    name: ArrayVec<u8, LONGEST_NAME>,
    serial: ArrayVec<u8, LONGEST_SERIAL>,
    write_protected: bool,
    thin: bool,
    write_back: bool,
}

impl Model for LogicalUnit {
    ghost use Rattle.iscsi_login.specs.Name.{IsName};
    ghost use Rattle.scsi_unit.specs.LogicalUnit.{IsSerial, LogicalUnit};

    ghost Value = { LogicalUnit };

    ghost view = { λ u. record {
      name = u.name.items;
      serial = u.serial.items;
      write_protected = u.write_protected;
      thin = u.thin;
      write_back = u.write_back;
    } };

    ghost invariant = { λ u. IsName u.name.items × IsSerial u.serial.items };
}

impl LogicalUnit {
    /// A unit of the target with this name and with this serial number. It says of itself whether it takes
    /// no write, and that it has no write cache.
    ///
    /// `None` unless the name is one of RFC 7143, section 4.2.7 (1 to 223 bytes of `!` to `~`), and the
    /// serial number has 1 to 16 bytes of `!` to `~` (own rule).
    pub fn new(name: &[u8], serial: &[u8], write_protected: bool) -> Option<LogicalUnit>
        ensures some { IfSome result (λ unit. IsName name.now × IsSerial serial.now
            × (unit ≡ record {
              name = name.now;
              serial = serial.now;
              write_protected = write_protected;
              thin = false;
              write_back = false;
            })) }
        ensures none { IfNone result (¬ (IsName name.now × IsSerial serial.now)) }
    {
        if !is_name(name) || !is_serial(serial) {
            return None;
        }
        let mut kept_name = ArrayVec::new();
        let _ = kept_name.try_extend_from_slice(name);
        let mut kept_serial = ArrayVec::new();
        let _ = kept_serial.try_extend_from_slice(serial);
        Some(LogicalUnit {
            name: kept_name,
            serial: kept_serial,
            write_protected,
            thin: false,
            write_back: false,
        })
    }

    /// The same unit as a thin one: it takes WRITE SAME(10) and WRITE SAME(16), says that they are
    /// there to take blocks back, and that such blocks read as zeros. How its store keeps zeros is no
    /// part of this.
    pub fn with_thin(self) -> LogicalUnit
        ensures { result ≡ record self { thin = true } }
    {
        LogicalUnit { thin: true, ..self }
    }

    /// The same unit, which says of itself that it has a write cache: a write may be lost in a crash
    /// before a SYNCHRONIZE CACHE, unless it has the bit FUA (SBC-3, section 4.15).
    pub fn with_write_back(self) -> LogicalUnit
        ensures { result ≡ record self { write_back = true } }
    {
        LogicalUnit {
            write_back: true,
            ..self
        }
    }

    /// The name of its target, which has 223 bytes at most.
    pub(crate) fn name(&self) -> &[u8]
        ensures bytes { result.now ≡ self.now.name }
        ensures name { IsName self.now.name }
    {
        self.name.as_slice()
    }

    /// Its serial number, of which there are 16 bytes at most.
    pub(crate) fn serial(&self) -> &[u8]
        ensures bytes { result.now ≡ self.now.serial }
        ensures serial { IsSerial self.now.serial }
    {
        self.serial.as_slice()
    }

    /// Whether it has a write cache.
    pub fn is_write_back(&self) -> bool
        ensures { result ≡ self.now.write_back }
    {
        self.write_back
    }

    /// Whether it takes no write.
    pub(crate) fn is_write_protected(&self) -> bool
        ensures { result ≡ self.now.write_protected }
    {
        self.write_protected
    }

    /// Whether it takes WRITE SAME.
    pub(crate) fn is_thin(&self) -> bool
        ensures { result ≡ self.now.thin }
    {
        self.thin
    }
}

/// Whether these bytes are a serial number: 1 to 16 of `!` to `~` (own rule).
pub fn is_serial(bytes: &[u8]) -> bool
    ensures serial { IsTrue result ↔ IsSerial bytes.now }
{
    !bytes.is_empty()
        && bytes.len() <= LONGEST_SERIAL
        && bytes.iter().all(|byte| is_in_serial(*byte))
}

// Whether a serial number may have this byte.
fn is_in_serial(byte: u8) -> bool
    ensures { IsTrue result ↔ IsInSerial byte }
{
    (b'!'..=b'~').contains(&byte)
}
