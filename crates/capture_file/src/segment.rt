//! The TCP segment of a packet.

ghost use Rattle.std.specs.Prelude.{◌≡◌};
ghost use Rattle.capture_file.specs.inner.Internet.{inside_of};
ghost use Rattle.capture_file.specs.Segments.{plain_segment, segment_in, tcp_segment};

use crate::fault::PacketFault;
use crate::link::before_network;
use crate::network::{Carried, Endpoint};
use crate::numbers::{Order, u16_at, u32_at};
use crate::packet::Packet;
use crate::tunnel::carried;

/// A TCP segment (RFC 9293, section 3.1).
#[derive(Clone, Copy)]
pub struct Segment<'a> {
    /// Who sent it.
    pub source: Endpoint,
    /// To whom.
    pub destination: Endpoint,
    /// The sequence number of its first byte, or of its SYN.
    pub sequence: u32,
    /// The sequence number of the byte that its sender awaits, where `ack` is set.
    pub acknowledged: u32,
    /// The SYN flag: the sender begins, and counts from `sequence`.
    pub syn: bool,
    /// The ACK flag.
    pub ack: bool,
    /// The FIN flag: the sender has no more bytes.
    pub fin: bool,
    /// The RST flag: the connection is ended.
    pub reset: bool,
    /// The bytes that were captured, without the header.
    pub bytes: &'a [u8],
    /// How many bytes it had behind these, which were not captured.
    pub missing: usize,
}

/// The TCP segment of a packet, itself or in a tunnel of GRE or VXLAN; `None` where it has none that a receiver takes: another protocol,
/// or lengths that cannot be. Checksums are not looked at, since a card may fill them in later.
///
/// `Link` comes for a link type that is not read, and `Cut` if the capture does not have all
/// headers up to that of TCP. `Fragment` comes for a fragment of an IP packet with TCP.
#[tactic(auto, unfolding(crate::specs::Segments::segment_in))]
pub fn segment_of<'a>(packet: Packet<'a>) -> Result<Option<Segment<'a>>, PacketFault>
    ensures exact { plain_segment result ≡ segment_in packet.entry }
{
    let Some(before) = before_network(packet.link, packet.bytes)? else {
        return Ok(None);
    };
    let original = packet.original as usize;
    if before > packet.bytes.len() || before > original {
        return Err(PacketFault::Cut);
    }
    let Some(carried) = carried(&packet.bytes[before..], original - before)? else {
        return Ok(None);
    };
    tcp(carried)
}

// The segment that a packet has for TCP (RFC 9293, section 3.1); `None` where no segment can be so.
#[tactic(auto, unfolding(crate::specs::Segments::tcp_segment))]
fn tcp<'a>(carried: Carried<'a>) -> Result<Option<Segment<'a>>, PacketFault>
    ensures { plain_segment result ≡ tcp_segment (inside_of carried.entry) }
{
    let bytes = carried.bytes;
    if bytes.len() < 20 {
        if carried.length < 20 {
            return Ok(None);
        }
        return Err(PacketFault::Cut);
    }
    let header = (bytes[12] / 16) as usize * 4;
    if header < 20 || header > carried.length {
        return Ok(None);
    }
    if header > bytes.len() {
        return Err(PacketFault::Cut);
    }
    let flags = bytes[13];
    Ok(Some(Segment {
        source: Endpoint {
            address: carried.source,
            port: u16_at(Order::Big, bytes, 0),
        },
        destination: Endpoint {
            address: carried.destination,
            port: u16_at(Order::Big, bytes, 2),
        },
        sequence: u32_at(Order::Big, bytes, 4),
        acknowledged: u32_at(Order::Big, bytes, 8),
        syn: flags & 2 != 0,
        ack: flags & 16 != 0,
        fin: flags & 1 != 0,
        reset: flags & 4 != 0,
        bytes: &bytes[header..],
        missing: carried.length.saturating_sub(bytes.len()),
    }))
}
