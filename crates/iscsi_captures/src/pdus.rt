//! The PDUs of one direction, of which bytes may be missing.

ghost use Rattle.std.specs.Prelude.{◌≡◌, ℕ, List, drop, OnOk, OnErr};
ghost use Rattle.iscsi_stream.specs.Stream.{Message, longest_segment};
ghost use Rattle.iscsi_stream.specs.Framing.{opening_framing};
ghost use Rattle.iscsi_explain.specs.Showing.{AppendsSome, PassesEntries};

use crate::digests::{Digests, Offers};
use crate::fault::Summed;
use crate::search::{Found, Numbers, Search, numbers_of};
use crate::walk::{Run, Walk};
use iscsi_explain::{Manner, Origin, Requests, Stamp, pass_on};
use iscsi_stream::{Framer, LONGEST_SEGMENT, StreamFault, ToolFault};
use std::alloc::{AllocError, Global};

/// How many bytes of a login's text are looked at.
const LONGEST_TEXT: usize = 65_536;

/// A digest that is wrong.
#[derive(Clone, Copy, Drop)]
pub struct WrongDigest {
    /// The part that it is for.
    pub part: Summed,
    /// Where its PDU begins in the direction.
    pub offset: u64,
}

/// What is read of one direction.
#[derive(Drop)]
pub(crate) struct Reading {
    alloc: Global,
    framer: Framer,
    walk: Walk,
    // the digests, once the login is over
    known: Option<Digests>,
    // what this end and the other one said of them
    offers: Offers,
    heard: Offers,
    // the text of the login PDU that is begun
    text: Vec<u8>,
    wrong: Vec<WrongDigest>,
    // where the next PDU is looked for, while its place is not known
    search: Search,
    is_searching: bool,
    // whether nothing of the direction went by before what is searched
    at_start: bool,
    // how many bytes of the direction stand before the framer's first
    from: u64,
    assumed: bool,
    // how many bytes of the PDU that is begun are missing
    missing: u64,
    // how many bytes of the direction were taken or are missing
    at: u64,
}

impl Reading {
    /// A direction before its first byte, where its first PDU begins. It takes no memory.
    pub(crate) fn new(alloc: Global) -> Reading {
        Reading {
            alloc,
            framer: Framer::new(alloc, LONGEST_SEGMENT),
            walk: Walk::new(Digests::NONE, false),
            known: None,
            offers: Offers::NONE,
            heard: Offers::NONE,
            text: Vec::new(alloc),
            wrong: Vec::new(alloc),
            search: Search::new(alloc),
            is_searching: false,
            at_start: true,
            from: 0,
            assumed: false,
            missing: 0,
            at: 0,
        }
    }

    /// What this end said of digests.
    pub(crate) fn offers(&self) -> Offers {
        self.offers
    }

    /// What the other end said of them.
    pub(crate) fn hears(&mut self, offers: Offers) {
        self.heard = offers;
    }

    /// The digests that were wrong since this was asked last.
    pub(crate) fn wrong_digests(&mut self) -> Vec<WrongDigest> {
        std::mem::replace(&mut self.wrong, Vec::new(self.alloc))
    }

    /// How many bytes of the direction were taken or are missing.
    pub(crate) fn at(&self) -> u64 {
        self.at
    }

    /// Whether the place of the next PDU is not known.
    pub(crate) fn is_searching(&self) -> bool {
        self.is_searching
    }

    /// The offset of the byte from which on PDUs are read, if that place was assumed.
    pub(crate) fn assumed_from(&self) -> Option<u64> {
        if self.assumed { Some(self.from) } else { None }
    }

    /// The numbers of the last header.
    pub(crate) fn numbers(&self, origin: Origin) -> Option<Numbers> {
        if self.is_searching {
            return None;
        }
        Some(numbers_of(self.walk.header()?, origin))
    }

    /// Bytes behind this one begin no PDU that is known: the next one is looked for.
    pub(crate) fn lose(&mut self) {
        self.is_searching = true;
        self.missing = 0;
        self.search.clear();
    }

    /// Looks for a PDU in what is held and in more bytes, and says how many bytes stand before it. A
    /// login at the first byte of the direction is one; the place of each other one is assumed.
    pub(crate) fn look(
        &mut self,
        origin: Origin,
        other: Option<Numbers>,
        bytes: &[u8],
    ) -> Result<Option<Found>, AllocError> {
        self.search.take(bytes)?;
        self.at = self.at.saturating_add(bytes.len() as u64);
        let start = self.at.saturating_sub(self.search.len() as u64);
        if self.at_start && self.search.begins_with_login(origin) {
            self.from = start;
            self.assumed = false;
            self.known = None;
            return Ok(Some(Found {
                place: 0,
                digests: Digests::NONE,
                is_open: false,
            }));
        }
        let Some(found) = self.search.find(origin, other, self.known)? else {
            if self.search.shorten()? > 0 {
                self.at_start = false;
            }
            return Ok(None);
        };
        self.from = start.saturating_add(found.place as u64);
        self.assumed = true;
        Ok(Some(found))
    }

    /// Reads on where a PDU was found: appends the PDUs that are whole in what is held.
    #[tactic(auto, using(crate::proofs::Shown::some_none, crate::proofs::Shown::some_passed, crate::proofs::Shown::some_then))]
    pub(crate) fn begin(
        &mut self,
        manner: Manner,
        requests: &mut Requests,
        found: Found,
        out: &mut Vec<u8>,
    ) -> Result<(), ToolFault>
        ensures appends { AppendsSome manner.form out.old.items out.new.items }
    {
        let search = std::mem::replace(&mut self.search, Search::new(self.alloc));
        let rest = search.from(found.place);
        self.walk = Walk::new(found.digests, found.is_open);
        self.is_searching = false;
        self.at_start = false;
        self.missing = 0;
        if self.assumed && found.digests.are_none() {
            self.walk.take(rest);
            let manner = self.marked(manner);
            return begin_stream(self.alloc, manner, requests, &mut self.framer, rest, out);
        }
        self.framer = Framer::new(self.alloc, LONGEST_SEGMENT);
        self.pass_runs(manner, requests, rest, true, out)
    }

    /// Reads more bytes, where the place of the next PDU is known: appends those that are whole.
    #[tactic(auto, using(crate::proofs::Shown::some_none, crate::proofs::Shown::some_passed, crate::proofs::Shown::some_then))]
    pub(crate) fn read(
        &mut self,
        manner: Manner,
        requests: &mut Requests,
        bytes: &[u8],
        out: &mut Vec<u8>,
    ) -> Result<(), ToolFault>
        ensures appends { AppendsSome manner.form out.old.items out.new.items }
    {
        if self.missing == 0 {
            return self.pass(manner, requests, bytes, true, out);
        }
        let left = self.walk.left().min(bytes.len());
        self.pass(manner, requests, &bytes[..left], true, out)?;
        if self.walk.left() > 0 {
            return Ok(());
        }
        self.missing = 0;
        self.pass(manner, requests, &bytes[left..], true, out)
    }

    // Passes bytes to the framer.
    #[tactic(auto, using(crate::proofs::Shown::some_none, crate::proofs::Shown::some_passed))]
    fn pass(
        &mut self,
        manner: Manner,
        requests: &mut Requests,
        bytes: &[u8],
        is_known: bool,
        out: &mut Vec<u8>,
    ) -> Result<(), ToolFault>
        ensures appends { AppendsSome manner.form out.old.items out.new.items }
    {
        self.at = self.at.saturating_add(bytes.len() as u64);
        if !self.has_sums() {
            self.walk.take(bytes);
            let manner = self.marked(manner);
            return pass_on(self.alloc, manner, requests, &mut self.framer, bytes, out);
        }
        self.pass_runs(manner, requests, bytes, is_known, out)
    }

    /// Whether a PDU may have digests, or still tell of them: not behind a login without, nor behind
    /// a place that was assumed without.
    pub(crate) fn has_sums(&self) -> bool {
        !self.walk.digests().are_none() || (self.known.is_none() && !self.assumed)
    }

    // Passes bytes to the framer run by run, without their sums.
    #[tactic(auto, using(crate::proofs::Shown::some_none, crate::proofs::Shown::some_then))]
    fn pass_runs(
        &mut self,
        manner: Manner,
        requests: &mut Requests,
        bytes: &[u8],
        is_known: bool,
        out: &mut Vec<u8>,
    ) -> Result<(), ToolFault>
        ensures appends { AppendsSome manner.form out.old.items out.new.items }
    {
        let mut rest = bytes;
        for turn in 0..bytes.len() {
            if rest.is_empty() {
                return Ok(());
            }
            let len = self.pass_run(manner, requests, rest, is_known, out)?;
            rest = rest.get(len..).unwrap_or(&[]);
        }
        Ok(())
    }

    // Passes the first of some bytes to the framer, as far as they are of one part of a PDU, and
    // says how many these are. A sum is not passed.
    #[tactic(auto, using(crate::proofs::Shown::some_none, crate::proofs::Shown::some_passed))]
    fn pass_run(
        &mut self,
        manner: Manner,
        requests: &mut Requests,
        bytes: &[u8],
        is_known: bool,
        out: &mut Vec<u8>,
    ) -> Result<usize, ToolFault>
        ensures appends { AppendsSome manner.form out.old.items out.new.items }
    {
        let run = self.walk_run(bytes, is_known)?;
        if !run.is_plain {
            return Ok(run.len);
        }
        let manner = self.marked(manner);
        let held = self.walk.held();
        let plain = if run.is_held {
            held.as_slice()
        } else {
            bytes.get(..run.len).unwrap_or(&[])
        };
        pass_on(self.alloc, manner, requests, &mut self.framer, plain, out)?;
        Ok(run.len)
    }

    /// Whether the digests are known, since the login is over.
    pub(crate) fn knows_sums(&self) -> bool {
        self.known.is_some()
    }

    /// Whether the next byte is one of a digest.
    pub(crate) fn is_at_sum(&self) -> bool {
        self.walk.is_at_sum()
    }

    /// Goes over the first of some bytes, and notes what they say of digests.
    pub(crate) fn walk_run(&mut self, bytes: &[u8], is_known: bool) -> Result<Run, AllocError> {
        if self.known.is_none() && !self.assumed {
            self.walk.agree(self.offers.agreed(self.heard));
        }
        let is_text = self.walk.is_in_segment() && self.walk.is_login();
        let run = self.walk.run(bytes, is_known);
        if is_text {
            self.take_text(bytes.get(..run.len).unwrap_or(&[]))?;
        }
        if let Some(is_header) = run.wrong {
            let part = if is_header {
                Summed::Header
            } else {
                Summed::Data
            };
            let offset = self.from.saturating_add(self.walk.begun());
            self.wrong.push(WrongDigest { part, offset })?;
        }
        if self.known.is_none() && self.walk.is_past_login() {
            self.known = Some(self.walk.digests());
        }
        Ok(run)
    }

    // Takes bytes of the text of a login PDU, and reads it where it ends.
    fn take_text(&mut self, bytes: &[u8]) -> Result<(), AllocError> {
        if self.text.len() <= LONGEST_TEXT {
            self.text.extend_from_slice(bytes)?;
        }
        if self.walk.is_between() {
            self.offers.take(&self.text);
            self.text.clear();
        }
        Ok(())
    }

    // How many bytes stand before the framer's first, and how many of sums behind that.
    fn before(&self) -> u64 {
        self.from.saturating_add(self.walk.sums_before())
    }

    /// Passes over bytes that are missing. Where all of them lie in the segment that is begun, 0
    /// stands for each, and the next PDU is known. Else it is looked for.
    #[tactic(auto, using(crate::proofs::Shown::some_none))]
    pub(crate) fn skip(
        &mut self,
        manner: Manner,
        requests: &mut Requests,
        count: u32,
        out: &mut Vec<u8>,
    ) -> Result<(), ToolFault>
        ensures appends { AppendsSome manner.form out.old.items out.new.items }
    {
        let count = count as usize;
        if !self.is_searching && count <= self.walk.left() {
            let lost = count.min(self.walk.segment_left());
            self.missing = self.missing.saturating_add(lost as u64);
            return self.fill(manner, requests, count, out);
        }
        self.at = self.at.saturating_add(count as u64);
        self.at_start = false;
        self.lose();
        Ok(())
    }

    // Takes zeros for missing bytes of the segment that is begun.
    #[tactic(auto, using(crate::proofs::Shown::some_none))]
    fn fill(
        &mut self,
        manner: Manner,
        requests: &mut Requests,
        count: usize,
        out: &mut Vec<u8>,
    ) -> Result<(), ToolFault>
        ensures appends { AppendsSome manner.form out.old.items out.new.items }
    {
        let zeros = vec![in self.alloc; 0u8; count]?;
        self.pass(manner, requests, &zeros, false, out)?;
        if self.walk.left() == 0 {
            self.missing = 0;
        }
        Ok(())
    }

    // How PDUs are written, with what is known of their places and of missing bytes.
    fn marked(&self, manner: Manner) -> Manner
        ensures form { result.form ≡ manner.form }
    {
        let stamp = match manner.stamp {
            Some(stamp) => Some(Stamp {
                from: self.before(),
                assumed: self.assumed,
                missing: self.missing,
                ..stamp
            }),
            None => None,
        };
        Manner {
            form: manner.form,
            stamp,
        }
    }

    /// A fault of the stream, with its place counted from the direction's first byte.
    pub(crate) fn moved(&self, fault: StreamFault) -> StreamFault {
        match fault {
            StreamFault::Head(head, place) => {
                StreamFault::Head(head, place.saturating_add(self.before()))
            }
            StreamFault::OverLimit(place) => StreamFault::OverLimit(place.saturating_add(
                self.before(),
            )),
            StreamFault::Truncated(place) => StreamFault::Truncated(place.saturating_add(
                self.before(),
            )),
            fault => fault,
        }
    }

    /// Ends the direction: `Truncated` where a PDU is begun, and no more is known of it.
    pub(crate) fn finish(&mut self) -> Result<(), StreamFault> {
        if self.is_searching {
            return Ok(());
        }
        self.framer.finish()
    }
}

// Reads bytes as a stream of its own: the entries are those of the PDUs that `show` has of them.
fn begin_stream(
    alloc: Global,
    manner: Manner,
    requests: &mut Requests,
    framer: &mut Framer,
    bytes: &[u8],
    out: &mut Vec<u8>,
) -> Result<(), ToolFault>
    ensures ok { OnOk result ((more : List Message)
        × PassesEntries manner.form (opening_framing longest_segment) framer.new
        out.old.items out.new.items bytes.now more) }
    ensures err { OnErr result (AppendsSome manner.form out.old.items out.new.items) }
{
    *framer = Framer::new(alloc, LONGEST_SEGMENT);
    pass_on(alloc, manner, requests, framer, bytes, out)
}
