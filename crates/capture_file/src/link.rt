//! What the header of a link says is inside (the registry of LINKTYPE values; IEEE 802.3, 802.1Q).

ghost use Rattle.std.specs.Prelude.{◌≡◌, ◌+◌, ◌≤◌, length, IfOk, IfSome};
ghost use Rattle.capture_file.specs.Links.{network_at, behind_tags, behind_cooked, behind_family, is_ip, is_vlan_tag};

use crate::fault::PacketFault;
use crate::numbers::{Order, u16_at, u32_at};

/// How many bytes stand before the IP packet; `None` where another protocol is inside.
#[tactic(auto, unfolding(crate::specs::Links::network_at))]
pub(crate) fn before_network(link: u16, packet: &[u8]) -> Result<Option<usize>, PacketFault>
    ensures { result ≡ network_at link packet.now }
{
    match link {
        1 => ethernet(packet),
        113 => cooked(packet, 14, 16),
        276 => cooked(packet, 0, 20),
        0 | 108 => loopback(packet),
        101 | 228 | 229 | 12 | 14 => Ok(Some(0)),
        _ => Err(PacketFault::Link(link)),
    }
}

/// Ethernet (1), with up to four VLAN tags of 4 bytes.
#[tactic(auto, using(crate::proofs::Headers::tags))]
pub(crate) fn ethernet(packet: &[u8]) -> Result<Option<usize>, PacketFault>
    ensures is { result ≡ behind_tags 5 12 packet.now }
    ensures within { IfOk result (λ before. IfSome before (λ n. n ≤ length packet.now)) }
{
    let mut at: usize = 12;
    for _ in 0..5u8 {
        if packet.len() < 2 || at > packet.len() - 2 {
            return Err(PacketFault::Cut);
        }
        let kind = u16_at(Order::Big, packet, at);
        if is_ip(kind) {
            return Ok(Some(at + 2));
        }
        if !is_tag(kind) {
            return Ok(None);
        }
        at += 4;
    }
    Ok(None)
}

/// Whether that is the EtherType of IPv4 or IPv6.
#[tactic(auto, unfolding(crate::specs::Links::is_ip))]
pub(crate) fn is_ip(kind: u16) -> bool
    ensures { result ≡ is_ip kind }
{
    kind == 0x0800 || kind == 0x86dd
}

// The EtherTypes of VLAN tags.
#[tactic(auto, unfolding(crate::specs::Links::is_vlan_tag))]
fn is_tag(kind: u16) -> bool
    ensures { result ≡ is_vlan_tag kind }
{
    kind == 0x8100 || kind == 0x88a8 || kind == 0x9100
}

// Linux's cooked headers, of version 1 (113) and 2 (276): where the EtherType stands, and how long
// the header is.
fn cooked(packet: &[u8], at: usize, header: usize) -> Result<Option<usize>, PacketFault>
    requires { at ≤ 14 }
    ensures { at + 2 ≤ header → result ≡ behind_cooked at header packet.now }
{
    if packet.len() < header || packet.len() < at + 2 {
        return Err(PacketFault::Cut);
    }
    if is_ip(u16_at(Order::Big, packet, at)) {
        Ok(Some(header))
    } else {
        Ok(None)
    }
}

// The loopback of BSD (0, 108): a protocol family in four bytes, in either order. It is 2 for IPv4,
// and 24, 28 or 30 for IPv6.
fn loopback(packet: &[u8]) -> Result<Option<usize>, PacketFault>
    ensures { result ≡ behind_family packet.now }
{
    if packet.len() < 4 {
        return Err(PacketFault::Cut);
    }
    let family = u32_at(Order::Little, packet, 0);
    let family = if family > 0xffff {
        u32_at(Order::Big, packet, 0)
    } else {
        family
    };
    match family {
        2 | 24 | 28 | 30 => Ok(Some(4)),
        _ => Ok(None),
    }
}
