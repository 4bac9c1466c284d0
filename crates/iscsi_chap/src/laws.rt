//! Laws of the definitions: functions that do nothing, whose contracts are the theorems.

ghost use Rattle.std.specs.Prelude.{◌≡◌, ◌≢◌, List, ℕ, [], Some};
ghost use Rattle.hex.specs.Hex.{IsBytes};
ghost use Rattle.iscsi_chap.specs.Binary.{binary_of, binary_text};

/// Bytes are read back from the value that is written for them, if there are any.
pub fn read_written()
    ensures back { (bytes : List ℕ) → IsBytes bytes → bytes ≢ []
        → binary_of (binary_text bytes) ≡ Some bytes }
{}
