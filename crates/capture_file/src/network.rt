//! IP packets: addresses, and the segment inside (RFC 791, section 3.1; RFC 8200, sections 3
//! and 4).

ghost use Rattle.std.specs.Prelude.{◌≡◌, ◌≤◌, min, length, slice_range};
ghost use Rattle.capture_file.specs.Internet.{inside, inside_4, inside_6, tcp_at, behind_extension};
ghost use Rattle.capture_file.specs.inner.Internet.{plain_carried};

use crate::fault::PacketFault;
use crate::numbers::{Order, u16_at};

/// An IP address, its bytes in the order of the packet.
#[derive(Clone, Copy, PartialEq, Eq, Drop)]
pub enum Address {
    /// Of IPv4.
    V4([u8; 4]),
    /// Of IPv6.
    V6([u8; 16]),
}

/// One end of a connection.
#[derive(Clone, Copy, PartialEq, Eq, Drop)]
pub struct Endpoint {
    /// The IP address.
    pub address: Address,
    /// The TCP port.
    pub port: u16,
}

/// What an IP packet carries for TCP.
#[derive(Clone, Copy)]
pub(crate) struct Carried<'a> {
    /// Who sent it.
    pub(crate) source: Address,
    /// To whom.
    pub(crate) destination: Address,
    /// How many bytes it has, of which some may not be captured.
    pub(crate) length: usize,
    /// The bytes that were captured.
    pub(crate) bytes: &'a [u8],
}

/// What the IP packet carries for TCP; `None` where it is no packet that a receiver takes, or has
/// another protocol. The original length counts where the packet says none, as packets do that were
/// longer than 65,535 bytes on a card that cuts them up.
#[tactic(auto, unfolding(crate::specs::Internet::inside))]
pub(crate) fn tcp_inside<'a>(
    packet: &'a [u8],
    original: usize,
) -> Result<Option<Carried<'a>>, PacketFault>
    ensures { plain_carried result ≡ inside original packet.now }
{
    if original == 0 {
        return Ok(None);
    }
    if packet.is_empty() {
        return Err(PacketFault::Cut);
    }
    match packet[0] / 16 {
        4 => version_4(packet, original),
        6 => version_6(packet, original),
        _ => Ok(None),
    }
}

// An IPv4 packet (RFC 791, section 3.1). What its length leaves over is padding.
#[tactic(auto, unfolding(crate::specs::Internet::inside_4))]
fn version_4<'a>(packet: &'a [u8], original: usize) -> Result<Option<Carried<'a>>, PacketFault>
    ensures { plain_carried result ≡ inside_4 original packet.now }
{
    if packet.len() < 20 {
        return Err(PacketFault::Cut);
    }
    if packet[9] != 6 {
        return Ok(None);
    }
    let header = (packet[0] % 16) as usize * 4;
    let said = u16_at(Order::Big, packet, 2) as usize;
    let total = if said == 0 { original } else { said };
    if header < 20 || total < header || total > original {
        return Ok(None);
    }
    if u16_at(Order::Big, packet, 6) % 16_384 != 0 {
        return Err(PacketFault::Fragment);
    }
    if packet.len() < header {
        return Err(PacketFault::Cut);
    }
    let mut source = [0u8; 4];
    source.copy_from_slice(&packet[12..16]);
    let mut destination = [0u8; 4];
    destination.copy_from_slice(&packet[16..20]);
    Ok(Some(Carried {
        source: Address::V4(source),
        destination: Address::V4(destination),
        length: total - header,
        bytes: within(packet, header, total),
    }))
}

// The bytes from `from` on, up to `to`, as far as they are there.
fn within(bytes: &[u8], from: usize, to: usize) -> &[u8]
    requires reached { from ≤ length bytes.now }
    requires order { from ≤ to }
    ensures { result.now ≡ slice_range bytes.now from (min to (length bytes.now)) }
{
    &bytes[from..to.min(bytes.len())]
}

// An IPv6 packet (RFC 8200, section 3).
#[tactic(auto, unfolding(crate::specs::Internet::inside_6))]
fn version_6<'a>(packet: &'a [u8], original: usize) -> Result<Option<Carried<'a>>, PacketFault>
    ensures { plain_carried result ≡ inside_6 original packet.now }
{
    if packet.len() < 40 {
        return Err(PacketFault::Cut);
    }
    let said = u16_at(Order::Big, packet, 4) as usize;
    let total = if said == 0 { original } else { 40 + said };
    if total > original {
        return Ok(None);
    }
    let Some(at) = tcp_behind(packet, packet[6])? else {
        return Ok(None);
    };
    if total < at {
        return Ok(None);
    }
    if packet.len() < at {
        return Err(PacketFault::Cut);
    }
    let mut source = [0u8; 16];
    source.copy_from_slice(&packet[8..24]);
    let mut destination = [0u8; 16];
    destination.copy_from_slice(&packet[24..40]);
    Ok(Some(Carried {
        source: Address::V6(source),
        destination: Address::V6(destination),
        length: total - at,
        bytes: within(packet, at, total),
    }))
}

// Where the header of TCP is, if the first one behind that of IPv6 has this type. Up to seven
// extension headers of the types 0, 43, 44 and 60 stand before it (section 4).
#[tactic(auto, using(crate::proofs::Headers::headers))]
fn tcp_behind(packet: &[u8], first: u8) -> Result<Option<usize>, PacketFault>
    ensures { result ≡ tcp_at 8 first 40 packet.now }
{
    let mut next = first;
    let mut at: usize = 40;
    for _ in 0..8u8 {
        if next == 6 {
            return Ok(Some(at));
        }
        let Some((kind, behind)) = behind_header(packet, next, at)? else {
            return Ok(None);
        };
        next = kind;
        at = behind;
    }
    Ok(None)
}

// What follows an extension header of this type, and where; `None` for another type. A fragment
// header of a whole packet is one, too.
#[tactic(auto, unfolding(crate::specs::Internet::behind_extension))]
fn behind_header(packet: &[u8], next: u8, at: usize) -> Result<Option<(u8, usize)>, PacketFault>
    ensures { result ≡ behind_extension next at packet.now }
{
    if next != 0 && next != 43 && next != 44 && next != 60 {
        return Ok(None);
    }
    if packet.len() < 8 || at > packet.len() - 8 {
        return Err(PacketFault::Cut);
    }
    if next != 44 {
        return Ok(Some((packet[at], at + (packet[at + 1] as usize + 1) * 8)));
    }
    if u16_at(Order::Big, packet, at + 2) & 0xfff9 != 0 {
        return Err(PacketFault::Fragment);
    }
    Ok(Some((packet[at], at + 8)))
}
