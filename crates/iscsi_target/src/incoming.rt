//! A write that takes the segment of a Data-Out as it comes (RFC 7143, section 11.7).

ghost use Rattle.std.specs.Prelude.{◌≡◌, ◌↔◌, ◌<◌, ◌+◌, ℕ, [], true, IsTrue};
ghost use Rattle.iscsi_stream.specs.inner.Gathering.{filling, FillsBody};
ghost use Rattle.iscsi_target.specs.Asking.{asks_task};
ghost use Rattle.iscsi_target.specs.Transfer.{bytes_received, is_in_sequence, with_data, joined_write};
ghost use Rattle.iscsi_target.specs.inner.Arrival.{IsDataOutDue, IsSegmentThere};
ghost use Rattle.iscsi_target.specs.declared.tasks.Task.TheVariants.{Data};

use crate::due::Due;
use crate::open_write::{OpenWrite, due_after};
use iscsi_pdu::{DataOut, pad};
use scsi_disk::{Found, Order};
use scsi_unit::asks_to_last;
use std::marker::Model;

/// A write that was taken from its place among the tasks, and the Data-Out that is due for it. The
/// bytes of the segment go behind those of the write as they come, and are copied nowhere else.
#[derive(Drop)]
pub struct Incoming {
    place: usize,
    initiator_task_tag: u32,
    immediate: bool,
    order: Order,
    found: Found,
    total: u32,
    due: Due,
    r2t_count: u32,
    head: DataOut,
    len: u32,
    // The bytes of the write, and behind the first `start` of them those of the segment.
    bytes: Vec<u8>,
    start: usize,
    padded: u32,
}

impl Model for Incoming {
    ghost use Rattle.std.specs.Prelude.{[], take, drop};
    ghost use Rattle.std.specs.Vec.{vec_capacity};
    ghost use Rattle.iscsi_target.specs.Transfer.{with_piece};
    ghost use Rattle.iscsi_target.specs.inner.Staged.{IsStaged};
    ghost use Rattle.iscsi_target.specs.inner.Arrival.{Arrival, IsFilling};

    ghost Value = { Arrival };

    ghost view = { λ i. record {
      place = i.place;
      write = record {
        initiator_task_tag = i.initiator_task_tag;
        immediate = i.immediate;
        order = i.order;
        total = i.total;
        pieces = with_piece [] 0 (take i.start i.bytes.items);
        due = i.due;
        r2t_count = i.r2t_count;
      };
      head = i.head;
      len = i.len;
      segment = drop i.start i.bytes.items;
      padded = i.padded;
    } };

    ghost invariant = { λ i. IsStaged i.order i.found i.total (take i.start i.bytes.items) i.due i.r2t_count
        × IsFilling i.total i.start i.len i.bytes.items i.padded (vec_capacity i.bytes) };
}

impl Incoming {
    /// Nothing came of a Data-Out with `n` bytes for this write, which stood at this place.
    pub fn new(place: usize, write: OpenWrite, head: DataOut, len: u32) -> Incoming
        requires due { (first_burst : ℕ) × (is_in_sequence first_burst write head
            (bytes_received write + len) write.due ≡ true) }
        ensures place { result.place ≡ place }
        ensures write { result.write ≡ write }
        ensures head { result.head ≡ head }
        ensures len { result.len ≡ len }
        ensures segment { result.segment ≡ [] }
        ensures padded { result.padded ≡ 0 }
    {
        let start = write.data.len();
        Incoming {
            place,
            initiator_task_tag: write.initiator_task_tag,
            immediate: write.immediate,
            order: write.order,
            found: write.found,
            total: write.total,
            due: write.due,
            r2t_count: write.r2t_count,
            head,
            len,
            bytes: write.data,
            start,
            padded: 0,
        }
    }

    /// The head of the Data-Out.
    pub fn head(&self) -> DataOut
        ensures head { result ≡ self.now.head }
        // The bytes of the write stand as one piece.
        ensures joined { joined_write self.now.write ≡ self.now.write }
    {
        self.head
    }

    /// Takes bytes of the piece into the segment, then into the padding, which is counted and not
    /// kept. Says how many it took: all, or as many as are missing.
    pub fn fill(&mut self, piece: &[u8]) -> usize
        ensures fills { FillsBody self.old.len (filling self.old.segment self.old.padded) piece.now
            result (filling self.new.segment self.new.padded) }
        ensures place { self.new.place ≡ self.old.place }
        ensures write { self.new.write ≡ self.old.write }
        ensures head { self.new.head ≡ self.old.head }
        ensures len { self.new.len ≡ self.old.len }
    {
        let missing = self.start + self.len as usize - self.bytes.len();
        let taken = piece.len().min(missing);
        let Ok(()) = self.bytes.extend_from_slice(&piece[..taken]) else {
            unreachable!()
        };
        let more = (piece.len() - taken).min((pad(self.len) - self.padded) as usize);
        self.padded += more as u32;
        taken + more
    }

    /// Whether the whole segment came, and its padding.
    pub fn is_there(&self) -> bool
        ensures { IsTrue result ↔ IsSegmentThere self.now }
    {
        self.bytes.len() - self.start >= self.len as usize && self.padded >= pad(self.len)
    }

    /// Whether the command of the write asks that what was written lasts before it is answered.
    pub fn asks(&self) -> bool
        ensures { result ≡ asks_task (Data self.now.write) }
    {
        asks_to_last(&self.order.cdb)
    }

    /// The place of the write, and the write with the Data-Out.
    pub fn into_write(self) -> (usize, OpenWrite)
        requires there { IsSegmentThere self }
        requires due { (first_burst : ℕ) × IsDataOutDue first_burst self }
        ensures place { result.0 ≡ self.place }
        ensures write { result.1 ≡ joined_write (with_data self.write self.head self.segment) }
    {
        let write = OpenWrite {
            initiator_task_tag: self.initiator_task_tag,
            immediate: self.immediate,
            order: self.order,
            found: self.found,
            total: self.total,
            data: self.bytes,
            due: due_after(self.due, &self.head),
            r2t_count: self.r2t_count,
        };
        (self.place, write)
    }
}
