//! A capture file, step by step.

ghost use Rattle.std.specs.Prelude.{◌≤◌, ◌<◌, ◌≡◌, ◌≢◌, ◌^◌, length, IfOk, IfErr, IfSome, IfNone, OnErr};
ghost use Rattle.capture_file.specs.Numbers.{ordered_number};
ghost use Rattle.capture_file.specs.declared.numbers.Order.{Order};
ghost use Rattle.capture_file.specs.Blocks.{byte_order, opening_file, SectionStep, SectionFails, DescribeStep, BlockStep, BlockFails, BeginStep, BeginFails, StepAt, FileFailsAt};
ghost use Rattle.capture_file.specs.declared.fault.CaptureFault.TheVariants.{NoMemory};

use crate::classic::record;
use crate::fault::CaptureFault;
use crate::numbers::{Order, u16_at, u32_at};
use crate::packet::{Interface, LONGEST, Step};
use crate::packet_blocks::{enhanced, least, simple};
use crate::time_units::resolution;
use std::alloc::Global;
use std::marker::Model;

/// Which file it is.
#[derive(Clone, Copy)]
enum Kind {
    /// Nothing was read.
    Unknown,
    /// A classic pcap file: its order, whether its times are nanoseconds, and its link type.
    Classic(Order, bool, u16),
    /// A pcapng file: the order of its section.
    Blocks(Order),
}

/// A capture file that is read from its beginning: a classic pcap file or a pcapng file
/// (draft-ietf-opsawg-pcap, draft-ietf-opsawg-pcapng). It keeps no bytes of the file, but the
/// interfaces of a section, 16 bytes for each.
#[derive(Drop)]
pub struct Capture {
    kind: Kind,
    interfaces: Vec<Interface>,
}

/// The type of a section header block, the same in either order.
const SECTION: u32 = 0x0a0d_0d0a;
/// The number that tells the order of a section's bytes.
const BYTE_ORDER: u32 = 0x1a2b_3c4d;

impl Model for Capture {
    ghost use Rattle.capture_file.specs.Numbers.{ordered_number};
    ghost use Rattle.capture_file.specs.declared.numbers.Order.{Order};
    ghost use Rattle.capture_file.specs.Blocks.{byte_order, FileReading};

    ghost Value = { FileReading };

    ghost view = { λ c. record { kind = c.kind; interfaces = c.interfaces.items } };
}

impl Capture {
    /// A file of which nothing was read. It takes no memory.
    pub fn new(alloc: Global) -> Capture
        ensures new { result ≡ opening_file }
    {
        Capture {
            kind: Kind::Unknown,
            interfaces: Vec::new(alloc),
        }
    }

    /// What stands at the reader's offset, from which the bytes are: some, or all that follow.
    ///
    /// The first offset is 0. After `Packet` and `Skip` the next one is that of the bytes behind,
    /// and after `More` it is the same.
    ///
    /// `Format` comes where the file begins as none that is read, is of another version of the
    /// classic format than 2, or has a section header with no byte order. `Length` comes where a
    /// length cannot be, or a record or block with a packet is longer than `LONGEST`. `Interface`
    /// comes where a packet's interface has no description in its section, and `NoMemory` where
    /// there is none for an interface more. A fault leaves the file as it was read so far.
    pub fn step<'a>(&mut self, bytes: &'a [u8]) -> Result<Step<'a>, CaptureFault>
        ensures ok { IfOk result (StepAt self.old bytes.now self.new) }
        ensures err { IfErr result (FileFailsAt self.old bytes.now) }
        ensures kept { OnErr result (self.new ≡ self.old) }
    {
        match self.kind {
            Kind::Unknown => self.begin(bytes),
            Kind::Classic(order, precise, link) => record(order, precise, link, bytes),
            Kind::Blocks(order) => self.block(order, bytes),
        }
    }

    // The first bytes of the file.
    fn begin<'a>(&mut self, bytes: &'a [u8]) -> Result<Step<'a>, CaptureFault>
        ensures ok { IfOk result (BeginStep self.old bytes.now self.new) }
        ensures err { IfErr result (BeginFails bytes.now) }
        ensures kept { OnErr result (self.new ≡ self.old) }
    {
        if bytes.len() < 24 {
            return Ok(Step::More(24));
        }
        let (order, precise) = match u32_at(Order::Big, bytes, 0) {
            0xa1b2_c3d4 => (Order::Big, false),
            0xd4c3_b2a1 => (Order::Little, false),
            0xa1b2_3c4d => (Order::Big, true),
            0x4d3c_b2a1 => (Order::Little, true),
            SECTION => return self.section(bytes),
            _ => return Err(CaptureFault::Format),
        };
        if u16_at(order, bytes, 4) != 2 {
            return Err(CaptureFault::Format);
        }
        let link = (u32_at(order, bytes, 20) % 65_536) as u16;
        self.kind = Kind::Classic(order, precise, link);
        Ok(Step::Skip(24))
    }

    // A section header: the order of what follows, which has interfaces of its own.
    fn section<'a>(&mut self, bytes: &'a [u8]) -> Result<Step<'a>, CaptureFault>
        ensures ok { IfOk result (SectionStep self.old bytes.now self.new) }
        ensures err { IfErr result (SectionFails bytes.now) }
        ensures kept { OnErr result (self.new ≡ self.old) }
    {
        if bytes.len() < 12 {
            return Ok(Step::More(12));
        }
        let Some(order) = section_order(bytes) else {
            return Err(CaptureFault::Format);
        };
        let total = u32_at(order, bytes, 4);
        if total < 28 || total % 4 != 0 {
            return Err(CaptureFault::Length);
        }
        self.kind = Kind::Blocks(order);
        self.interfaces.clear();
        Ok(Step::Skip(total))
    }

    // A block of a pcapng file.
    fn block<'a>(&mut self, order: Order, bytes: &'a [u8]) -> Result<Step<'a>, CaptureFault>
        ensures ok { IfOk result (BlockStep order self.old bytes.now self.new) }
        ensures err { IfErr result (BlockFails order self.old bytes.now) }
        ensures kept { OnErr result (self.new ≡ self.old) }
    {
        if bytes.len() < 8 {
            return Ok(Step::More(8));
        }
        let kind = u32_at(order, bytes, 0);
        if kind == SECTION {
            return self.section(bytes);
        }
        let total = u32_at(order, bytes, 4);
        if total < 12 || total % 4 != 0 {
            return Err(CaptureFault::Length);
        }
        if kind != 1 && kind != 2 && kind != 3 && kind != 6 {
            return Ok(Step::Skip(total));
        }
        if total > LONGEST {
            return Err(CaptureFault::Length);
        }
        let total = total as usize;
        if bytes.len() < total {
            return Ok(Step::More(total));
        }
        let bytes = &bytes[..total];
        if u32_at(order, bytes, total - 4) as usize != total {
            return Err(CaptureFault::Length);
        }
        if total < least(kind) {
            return Err(CaptureFault::Length);
        }
        match kind {
            1 => self.describe(order, bytes),
            3 => simple(order, &self.interfaces, bytes),
            _ => enhanced(order, kind, &self.interfaces, bytes),
        }
    }

    // An interface description.
    fn describe<'a>(&mut self, order: Order, bytes: &'a [u8]) -> Result<Step<'a>, CaptureFault>
        requires least { 20 ≤ length bytes.now }
        requires most { length bytes.now < 2 ^ 32 }
        ensures ok { IfOk result (DescribeStep order self.old bytes.now self.new) }
        ensures err { IfErr result (λ fault. fault ≡ NoMemory) }
        ensures kept { OnErr result (self.new ≡ self.old) }
    {
        let interface = Interface {
            link: u16_at(order, bytes, 8),
            snap: u32_at(order, bytes, 12),
            second: resolution(order, &bytes[16..bytes.len() - 4]),
        };
        match self.interfaces.push(interface) {
            Ok(()) => Ok(Step::Skip(bytes.len() as u32)),
            Err(_) => Err(CaptureFault::NoMemory),
        }
    }
}

// The order in which the third number of a section header is the one that tells it.
fn section_order(bytes: &[u8]) -> Option<Order>
    requires { 12 ≤ length bytes.now }
    ensures told { IfSome result (λ order. ordered_number order 4 8 bytes.now ≡ byte_order) }
    ensures none { IfNone result ((order : Order)
        → ordered_number order 4 8 bytes.now ≢ byte_order) }
{
    if u32_at(Order::Big, bytes, 8) == BYTE_ORDER {
        return Some(Order::Big);
    }
    if u32_at(Order::Little, bytes, 8) == BYTE_ORDER {
        return Some(Order::Little);
    }
    None
}
