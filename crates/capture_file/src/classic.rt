//! Records of a classic pcap file (draft-ietf-opsawg-pcap, section 5).

ghost use Rattle.std.specs.Prelude.{◌≡◌, IfOk, IfErr};
ghost use Rattle.capture_file.specs.Records.{RecordStep, IsTooLong};

use crate::fault::CaptureFault;
use crate::numbers::{Order, u32_at};
use crate::packet::{LONGEST, Packet, Step};

// A record of a classic file: its packet, or how many bytes it takes to tell it.
pub(crate) fn record<'a>(
    order: Order,
    precise: bool,
    link: u16,
    bytes: &'a [u8],
) -> Result<Step<'a>, CaptureFault>
    ensures ok { IfOk result (RecordStep order precise link bytes.now) }
    ensures err { IfErr result (λ fault.
        (fault ≡ CaptureFault.Length) × IsTooLong order bytes.now) }
{
    let second: u64 = if precise { 1_000_000_000 } else { 1_000_000 };
    if bytes.len() < 16 {
        return Ok(Step::More(16));
    }
    let captured = u32_at(order, bytes, 8);
    if captured > LONGEST {
        return Err(CaptureFault::Length);
    }
    let captured = captured as usize;
    if bytes.len() < 16 + captured {
        return Ok(Step::More(16 + captured));
    }
    let packet = Packet {
        time: u32_at(order, bytes, 0) as u64 * second + u32_at(order, bytes, 4) as u64,
        second,
        link,
        original: u32_at(order, bytes, 12),
        bytes: &bytes[16..16 + captured],
    };
    Ok(Step::Packet(packet, 16 + captured))
}
