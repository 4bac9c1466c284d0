//! IP packets inside others: GRE (RFC 2784, 2890), ERSPAN (draft-foschiano-erspan) and VXLAN (RFC 7348).

ghost use Rattle.std.specs.Prelude.{◌≡◌, ◌+◌, ◌≤◌, length};
ghost use Rattle.capture_file.specs.Tunnels.{behind_gre, carried, gre_field, in_frame, in_gre, in_mirrored_3, in_packet_4, in_protocol, in_type, in_vxlan, tunnel_in};
ghost use Rattle.capture_file.specs.inner.Internet.{plain_carried};

use crate::fault::PacketFault;
use crate::link::{ethernet, is_ip};
use crate::network::{Carried, tcp_inside};
use crate::numbers::{Order, u16_at};

/// What an IP packet carries for TCP, itself or in a tunnel; `None` and faults are as in
/// `tcp_inside`.
#[tactic(auto, unfolding(crate::specs::Tunnels::carried))]
pub(crate) fn carried<'a>(
    packet: &'a [u8],
    original: usize,
) -> Result<Option<Carried<'a>>, PacketFault>
    ensures { plain_carried result ≡ carried original packet.now }
{
    match before_inner(packet)? {
        None => tcp_inside(packet, original),
        Some(before) if before > packet.len() || before > original => Err(PacketFault::Cut),
        Some(before) => tcp_inside(&packet[before..], original - before),
    }
}

// How many bytes stand before the IP packet inside an IP packet; `None` where it has none.
#[tactic(auto, unfolding(crate::specs::Tunnels::tunnel_in))]
fn before_inner(packet: &[u8]) -> Result<Option<usize>, PacketFault>
    ensures { result ≡ tunnel_in packet.now }
{
    if packet.len() < 20 {
        return Ok(None);
    }
    let version = packet[0] / 16;
    if version == 4 {
        return in_packet_4(packet);
    }
    if packet.len() < 40 || version != 6 {
        return Ok(None);
    }
    in_protocol(packet[6], packet, 40)
}

// The same of an IPv4 packet.
fn in_packet_4(packet: &[u8]) -> Result<Option<usize>, PacketFault>
    requires { 20 ≤ length packet.now }
    ensures { result ≡ in_packet_4 packet.now }
{
    let protocol = packet[9];
    if u16_at(Order::Big, packet, 6) % 16_384 != 0 {
        return if protocol == 47 {
            Err(PacketFault::Fragment)
        } else {
            Ok(None)
        };
    }
    in_protocol(protocol, packet, (packet[0] % 16) as usize * 4)
}

// The same by the protocol of the packet, which stands at this place.
fn in_protocol(protocol: u8, packet: &[u8], at: usize) -> Result<Option<usize>, PacketFault>
    requires { at ≤ 60 }
    ensures { result ≡ in_protocol protocol at packet.now }
{
    match protocol {
        47 => in_gre(packet, at),
        17 => in_vxlan(packet, at),
        _ => Ok(None),
    }
}

// The same of VXLAN, if that is in the UDP packet.
#[tactic(auto, unfolding(crate::specs::Tunnels::in_vxlan))]
fn in_vxlan(packet: &[u8], at: usize) -> Result<Option<usize>, PacketFault>
    requires { at ≤ 60 }
    ensures { result ≡ in_vxlan at packet.now }
{
    if packet.len() < at + 4 {
        return Err(PacketFault::Cut);
    }
    if u16_at(Order::Big, packet, at + 2) == 4789 {
        in_frame(packet, at + 16)
    } else {
        Ok(None)
    }
}

// The same of GRE.
#[tactic(auto, unfolding(crate::specs::Tunnels::in_gre))]
fn in_gre(packet: &[u8], at: usize) -> Result<Option<usize>, PacketFault>
    requires { at ≤ 60 }
    ensures { result ≡ in_gre at packet.now }
{
    if packet.len() < at + 4 {
        return Err(PacketFault::Cut);
    }
    let flags = u16_at(Order::Big, packet, at);
    if flags & 0x4007 != 0 {
        return Ok(None);
    }
    in_type(u16_at(Order::Big, packet, at + 2), packet, at)
}

// The same of GRE with this type.
fn in_type(kind: u16, packet: &[u8], at: usize) -> Result<Option<usize>, PacketFault>
    requires few { at ≤ 60 }
    requires there { at + 4 ≤ length packet.now }
    ensures { result ≡ in_type kind at packet.now }
{
    let behind = behind_gre(packet, at);
    if is_ip(kind) {
        return Ok(Some(behind));
    }
    match kind {
        0x6558 => in_frame(packet, behind),
        0x88be => {
            let number = field(u16_at(Order::Big, packet, at), 0x1000);
            in_frame(packet, behind + 2 * number)
        }
        0x22eb => in_mirrored(packet, behind),
        _ => Ok(None),
    }
}

// Where the header of GRE ends.
fn behind_gre(packet: &[u8], at: usize) -> usize
    requires few { at ≤ 60 }
    requires there { at + 4 ≤ length packet.now }
    ensures is { result ≡ behind_gre at packet.now }
    ensures few { result ≤ at + 16 }
{
    let flags = u16_at(Order::Big, packet, at);
    at + 4 + field(flags, 0x8000) + field(flags, 0x2000) + field(flags, 0x1000)
}

// How long a field of GRE is, if a flag says that it is there.
fn field(flags: u16, flag: u16) -> usize
    ensures is { result ≡ gre_field flag flags }
    ensures short { result ≤ 4 }
{
    if flags & flag == 0 { 0 } else { 4 }
}

// The same of ERSPAN's third kind.
fn in_mirrored(packet: &[u8], at: usize) -> Result<Option<usize>, PacketFault>
    requires { at ≤ 76 }
    ensures { result ≡ in_mirrored_3 at packet.now }
{
    if packet.len() < at + 12 {
        return Err(PacketFault::Cut);
    }
    in_frame(packet, at + 12 + 8 * (packet[at + 11] % 2) as usize)
}

// The same of an Ethernet frame at this place.
#[tactic(auto, unfolding(crate::specs::Tunnels::in_frame))]
fn in_frame(packet: &[u8], at: usize) -> Result<Option<usize>, PacketFault>
    requires { at ≤ 96 }
    ensures { result ≡ in_frame at packet.now }
{
    if packet.len() < at {
        return Err(PacketFault::Cut);
    }
    match ethernet(&packet[at..])? {
        Some(before) => Ok(Some(at + before)),
        None => Ok(None),
    }
}
