//! Packets, and what stands at an offset of a capture file.

/// The longest record or block with a packet that is read, in bytes of the packet (classic) or of
/// the whole block (pcapng): 1 MiB (own rule).
pub const LONGEST: u32 = 1_048_576;

/// A packet as the file has it (draft-ietf-opsawg-pcap, section 5; draft-ietf-opsawg-pcapng,
/// sections 4.3, 4.4 and appendix A).
#[derive(Clone, Copy)]
pub struct Packet<'a> {
    /// When it was captured, in units from 1970-01-01 00:00 UTC on; 0 where the file says no time.
    pub time: u64,
    /// How many units a second has: 1,000,000 for microseconds.
    pub second: u64,
    /// The link type of its interface (LINKTYPE, 16 bits).
    pub link: u16,
    /// How many bytes it had on the link.
    pub original: u32,
    /// The bytes that were captured: some first ones of it, with no padding.
    pub bytes: &'a [u8],
}

/// What stands at an offset of a file.
#[derive(Clone, Copy)]
pub enum Step<'a> {
    /// A packet, and the length of its record or block in bytes. What follows stands behind these.
    Packet(Packet<'a>, usize),
    /// This many bytes have no packet: a header, or a block of another type. They need not be at
    /// hand, and may be up to 4 GiB. What follows stands behind them.
    Skip(u32),
    /// Too few bytes are at hand: ask again at the same offset with at least this many, 1,048,592
    /// at most. If the file ends before, it is cut off there.
    More(usize),
}

/// An interface of a pcapng section.
#[derive(Clone, Copy)]
pub(crate) struct Interface {
    /// The link type of its packets.
    pub(crate) link: u16,
    /// How many bytes of a packet are captured at most; 0: all.
    pub(crate) snap: u32,
    /// How many units of its times a second has.
    pub(crate) second: u64,
}
