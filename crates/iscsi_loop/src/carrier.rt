//! What carries bytes between two ends of one process.

ghost use Rattle.std.specs.Prelude.{◌≡◌, ℕ, List, IfErr, OnOk, length};
ghost use Rattle.iscsi_serving.specs.declared.fault.ServeFault.TheVariants as serve;

use iscsi_serving::ServeFault;

/// A connection of an initiator and a target that are both here. What one end writes is read at the
/// other, piece by piece.
///
/// Contracts see a carrier as what may be read where some bytes were written. Its only fault is
/// `Network`.
pub trait Carrier: Drop {
    /// What was written to it, and what may then be read from it.
    ghost carries: { List ℕ → List ℕ → Type 0 };

    /// A new connection.
    fn open(rt: &HostRuntime) -> Result<Self, ServeFault>
        ensures err { IfErr result (λ fault. fault ≡ serve.Network) };

    /// Writes a piece at the initiator's end, and reads as many bytes at the target's.
    fn to_target(&mut self, piece: &[u8], read: &mut [u8]) -> Result<(), ServeFault>
        requires whole { length read.old ≡ length piece.now }
        ensures carried { OnOk result (carries piece.now read.new) }
        ensures err { IfErr result (λ fault. fault ≡ serve.Network) };

    /// Writes a piece at the target's end, and reads as many bytes at the initiator's.
    fn to_initiator(&mut self, piece: &[u8], read: &mut [u8]) -> Result<(), ServeFault>
        requires whole { length read.old ≡ length piece.now }
        ensures carried { OnOk result (carries piece.now read.new) }
        ensures err { IfErr result (λ fault. fault ≡ serve.Network) };

    /// Ends the connection at the initiator's end, and waits for the end at the target's.
    fn close(self) -> Result<(), ServeFault>
        ensures err { IfErr result (λ fault. fault ≡ serve.Network) };
}

/// A connection in memory: it returns what was written to it, and has no fault.
#[derive(Drop)]
pub struct Channel;

impl Carrier for Channel {
    ghost use Rattle.std.specs.Prelude.{◌≡◌};

    ghost carries = { λ written read. read ≡ written };

    fn open(_rt: &HostRuntime) -> Result<Channel, ServeFault> {
        Ok(Channel)
    }

    fn to_target(&mut self, piece: &[u8], read: &mut [u8]) -> Result<(), ServeFault> {
        give(piece, read);
        Ok(())
    }

    fn to_initiator(&mut self, piece: &[u8], read: &mut [u8]) -> Result<(), ServeFault> {
        give(piece, read);
        Ok(())
    }

    fn close(self) -> Result<(), ServeFault> {
        Ok(())
    }
}

// Passes a piece on unchanged.
fn give(piece: &[u8], read: &mut [u8])
    requires whole { length read.old ≡ length piece.now }
    ensures same { read.new ≡ piece.now }
{
    read.copy_from_slice(piece);
}
