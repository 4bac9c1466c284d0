//! The blocks of a pcapng file that have a packet (draft-ietf-opsawg-pcapng, sections 4.3 and 4.4,
//! appendix A).

ghost use Rattle.std.specs.Prelude.{◌≡◌, ◌≢◌, [], ◌≤◌, length, IfOk, IfErr};
ghost use Rattle.capture_file.specs.Numbers.{ordered_number};
ghost use Rattle.capture_file.specs.Records.{width_of, EnhancedStep, EnhancedFails, SimpleStep};

use crate::fault::CaptureFault;
use crate::numbers::{Order, u16_at, u32_at};
use crate::packet::{Interface, Packet, Step};

// How many bytes a block of this type has at least: its fixed fields, and the length at both ends.
pub(crate) fn least(kind: u32) -> usize
    ensures described { kind ≡ 1 → result ≡ 20 }
    ensures simple { kind ≡ 3 → result ≡ 16 }
    ensures packet { kind ≢ 1 → kind ≢ 3 → result ≡ 32 }
{
    match kind {
        1 => 20,
        3 => 16,
        _ => 32,
    }
}

// The number of a block's interface: two bytes in an obsolete packet block, else four.
fn interface_number(order: Order, kind: u32, block: &[u8]) -> u32
    requires { 32 ≤ length block.now }
    ensures { result ≡ ordered_number order (width_of kind) 8 block.now }
{
    if kind == 2 {
        u16_at(order, block, 8) as u32
    } else {
        u32_at(order, block, 8)
    }
}

// An enhanced packet block (6), or an obsolete packet block (2).
pub(crate) fn enhanced<'a>(
    order: Order,
    kind: u32,
    interfaces: &[Interface],
    block: &'a [u8],
) -> Result<Step<'a>, CaptureFault>
    requires { 32 ≤ length block.now }
    ensures ok { IfOk result (EnhancedStep order kind interfaces.now block.now) }
    ensures err { IfErr result (EnhancedFails order kind interfaces.now block.now) }
{
    let Some(interface) = interfaces.get(interface_number(order, kind, block) as usize) else {
        return Err(CaptureFault::Interface);
    };
    let captured = u32_at(order, block, 20) as usize;
    if captured > block.len() - 32 {
        return Err(CaptureFault::Length);
    }
    let high = u32_at(order, block, 12) as u64;
    let low = u32_at(order, block, 16) as u64;
    let packet = Packet {
        time: high * 4_294_967_296 + low,
        second: interface.second,
        link: interface.link,
        original: u32_at(order, block, 24),
        bytes: &block[28..28 + captured],
    };
    Ok(Step::Packet(packet, block.len()))
}

// A simple packet block (3): of the section's first interface, and without a time.
pub(crate) fn simple<'a>(
    order: Order,
    interfaces: &[Interface],
    block: &'a [u8],
) -> Result<Step<'a>, CaptureFault>
    requires { 16 ≤ length block.now }
    ensures ok { IfOk result (SimpleStep order interfaces.now block.now) }
    ensures err { IfErr result (λ fault. (fault ≡ CaptureFault.Interface) × (interfaces.now ≡ [])) }
{
    let Some(interface) = interfaces.first() else {
        return Err(CaptureFault::Interface);
    };
    let original = u32_at(order, block, 8);
    let within = if interface.snap == 0 {
        original
    } else {
        original.min(interface.snap)
    };
    let captured = (within as usize).min(block.len() - 16);
    let packet = Packet {
        time: 0,
        second: interface.second,
        link: interface.link,
        original,
        bytes: &block[12..12 + captured],
    };
    Ok(Step::Packet(packet, block.len()))
}
