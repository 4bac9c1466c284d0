//! The names of a unit (SPC-4, section 7.8.6).

ghost use Rattle.std.specs.Prelude.{◌≡◌, ◌-◌, ◌%◌, ◌≤◌, length, replicate};
ghost use Rattle.scsi_unit.specs.Designators.{designator, designators, locally_assigned, name_string, unit_number, vendor_name};

use crate::data::{Data, data, joined};
use crate::unit::LogicalUnit;
use md5::{Digest as _, Md5};

/// The vendor of every unit.
const VENDOR: &[u8; 8] = b"LANTHOVR";

/// The text behind the name of a target: its LUN 0.
const OF_UNIT_ZERO: &[u8; 21] = b",L,0x0000000000000000";

impl LogicalUnit {
    /// All names of the unit.
    pub(crate) fn designators(&self) -> Data
        ensures all { result.items ≡ designators self.now.name self.now.serial }
        ensures few { length result.items ≤ 292 }
    {
        let vendor = designator(2, 1, self.vendor_name().as_slice());
        let number = designator(1, 3, self.number().as_slice());
        let string = designator(3, 8, self.name_string().as_slice());
        let behind = joined(number.as_slice(), string.as_slice());
        joined(vendor.as_slice(), behind.as_slice())
    }

    // The vendor, and the serial number.
    fn vendor_name(&self) -> Data
        ensures name { result.items ≡ vendor_name self.now.serial }
        ensures few { length result.items ≤ 24 }
    {
        joined(VENDOR, self.serial())
    }

    // The number of the unit.
    fn number(&self) -> Data
        ensures number { result.items ≡ unit_number self.now.name self.now.serial }
        ensures few { length result.items ≤ 8 }
    {
        let mut hasher = Md5::new();
        hasher.update(self.name());
        hasher.update([0].as_slice());
        hasher.update(self.serial());
        locally_assigned(hasher.finalize().as_slice())
    }

    // The SCSI name string of the unit.
    fn name_string(&self) -> Data
        ensures string { result.items ≡ name_string self.now.name }
        ensures few { length result.items ≤ 248 }
    {
        let text = joined(self.name(), OF_UNIT_ZERO);
        joined(text.as_slice(), closing(text.len()))
    }
}

// A hash as a number that is assigned locally.
fn locally_assigned(hash: &[u8]) -> Data
    ensures number { result.items ≡ locally_assigned hash.now }
    ensures few { length result.items ≤ 8 }
{
    match hash {
        [first, rest @ ..] => joined(&[0x30 + first % 16], &rest[..rest.len().min(7)]),
        [] => Data::new(),
    }
}

// The bytes 00 behind a text of this length.
fn closing(length: usize) -> &'static [u8]
    ensures zeros { result.now ≡ replicate (4 - length % 4) 0 }
{
    match length % 4 {
        0 => b"\0\0\0\0",
        1 => b"\0\0\0",
        2 => b"\0\0",
        _ => b"\0",
    }
}

// A designator of the logical unit, by its code set, its type and its bytes.
fn designator(code_set: u8, kind: u8, bytes: &[u8]) -> Data
    requires { length bytes.now ≤ 248 }
    ensures { result.items ≡ designator code_set kind bytes.now }
{
    joined(&[code_set, kind, 0, bytes.len() as u8], bytes)
}
