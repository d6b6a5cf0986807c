//! The journaler: what it holds, and its calls.

ghost use Rattle.std.specs.Prelude.{◌≡◌, ◌⊎◌, ℕ, ◌+◌, ◌-◌, ◌*◌, ◌^◌, ◌<◌, ◌≤◌, [], ◌∷◌, Option, None, Some, option_map, IsSome, IfSome, MatchOption, MatchResult, IfOk, OnOk, IfErr, OnErr, IsOk, IsErrOf, IsTrue, false};
ghost use Rattle.std.specs.VecDeque.{deque_len, deque_capacity};
ghost use Rattle.mj_base.specs.ObjectName.{journal_ino};
ghost use Rattle.mj_base.specs.declared.object.ObjectName.TheVariants.{File};
ghost use Rattle.mj_entry.specs.Entry.{IsPayload, entry_length};
ghost use Rattle.mj_layout.specs.Header.{IsHeader};
ghost use Rattle.mj_layout.specs.Striping.{IsStriping};
ghost use Rattle.mj_store.specs.Causes.{In};
ghost use Rattle.mj_store.specs.declared.act.ObjectAct.TheVariants.{Write};
ghost use Rattle.mj_journaler.specs.Outstanding.{last_end, ends_above};
ghost use Rattle.mj_journaler.specs.Journal.{Journal, layout_of, end_of, unsafe_of, window_of, flush_end, first_set, trimmed_of, IsNew};
ghost use Rattle.mj_journaler.specs.Calls.{begun, journal_object, append_refusal, append_both_refusal, TakesBoth, appended, reserved, flush_of, head_of, header_now, removal_of, offer_op, offered, taken, sent_on, acked_to, expire_of, acknowledged, earlier, write_out, head_out, removal_out, oldest_sent};
ghost use Rattle.mj_journaler.specs.Keeps.{MaySend, IsLast, IsDone};
ghost use Rattle.mj_journaler.specs.Cutting.{IsBelowTail, Truncates};
ghost use Rattle.mj_journaler.specs.Ring.{spare};
ghost use Rattle.mj_journaler.specs.declared.AppendRefusal.TheVariants.{Memory};
ghost use Rattle.mj_journaler.specs.declared.sent.Offer.TheVariants.{Flush, Head, Removal};

use crate::buffer::Buffer;
use crate::copying::copied;
use crate::cutting::tail_cut;
use crate::ring::Ring;
use crate::sent::{Offer, Sent};
use crate::{Acked, AppendRefusal};
use mj_base::limits::{ENVELOPE, LAST_POSITION, MOST_UNSAFE, WINDOW};
use mj_base::{Items, OpNo, RankNo};
use mj_layout::{Header, Layout, journal_object};
use mj_store::{ObjectAct, ObjectName, ObjectOp};
use std::alloc::{AllocError, Global};
use std::collections::VecDeque;
use std::marker::Model;

/// The writer of a journal. It buffers entries, gives the operations that bring them to the store, and takes their
/// acknowledgements in any order.
#[derive(Drop)]
pub struct Journaler {
    rank: RankNo,
    /// Where the mount began, and the trimmed position that it found.
    tail: u64,
    trimmed: u64,
    /// The last header that was sent, and the expire of the last one that was acknowledged.
    header: Header,
    live: u64,
    safe: u64,
    flushed: u64,
    /// Where the buffer ends.
    end: u64,
    buffer: Buffer,
    /// The ends of the entries above the safe position, in order.
    ends: VecDeque<u64>,
    sent: Ring,
    heads: Ring,
    removals: Ring,
    /// The least object whose removal was not sent.
    removing: u64,
    offer: Option<Offer>,
    room: usize,
}

impl Model for Journaler {
    ghost use Rattle.mj_journaler.specs.Journal.{Journal};

    ghost Value = { Journal };

    ghost use Rattle.mj_journaler.specs.Inside.{journal_in, IsSound};

    ghost view = { journal_in };

    ghost invariant = { IsSound };
}

impl Journaler {
    /// The journaler of a rank whose journal ends at `tail`, where this header stands.
    pub fn new(
        alloc: Global,
        head: Header,
        rank: RankNo,
        tail: u64,
    ) -> Result<Journaler, AllocError>
        requires header { IsHeader head }
        requires above { head.expire ≤ tail }
        requires below { tail ≤ 2 ^ 62 }
        ensures { IfOk result (λ j. j ≡ begun head rank tail) }
    {
        let mut buffer = Buffer::new(alloc);
        buffer.reserve(alloc, ENVELOPE)?;
        let removing = first_object(&head.layout, head.trimmed);
        Ok(Journaler {
            rank,
            tail,
            trimmed: head.trimmed,
            live: head.expire,
            header: head,
            safe: tail,
            flushed: tail,
            end: tail,
            buffer,
            ends: VecDeque::new(alloc),
            sent: Ring::new(alloc),
            heads: Ring::new(alloc),
            removals: Ring::new(alloc),
            removing,
            offer: None,
            room: 0,
        })
    }

    /// A copy, equal to this one.
    pub fn copy(&self, alloc: Global) -> Result<Journaler, AllocError>
        ensures { IfOk result (λ j. j ≡ self.now) }
    {
        let bytes = self
            .buffer
            .front(alloc, (self.end - self.flushed) as usize)?;
        let buffer = Buffer::holding(alloc, bytes, self.room)?;
        let ends = copied(alloc, &self.ends)?;
        let sent = self.sent.copy(alloc)?;
        let heads = self.heads.copy(alloc)?;
        let removals = self.removals.copy(alloc)?;
        Ok(Journaler {
            rank: self.rank,
            tail: self.tail,
            trimmed: self.trimmed,
            header: self.header,
            live: self.live,
            safe: self.safe,
            flushed: self.flushed,
            end: self.end,
            buffer,
            ends,
            sent,
            heads,
            removals,
            removing: self.removing,
            offer: self.offer,
            room: self.room,
        })
    }

    /// Where the next entry begins.
    pub fn end(&self) -> u64
        ensures { result ≡ end_of self.now }
    {
        self.end
    }

    /// What is below was given to the store.
    pub fn flushed(&self) -> u64
        ensures { result ≡ self.now.flushed }
    {
        self.flushed
    }

    /// The end of the last entry of which every byte and every earlier byte is acknowledged.
    pub fn safe_pos(&self) -> u64
        ensures { result ≡ self.now.safe }
    {
        self.safe
    }

    /// How many bytes are not safe.
    pub fn unsafe_bytes(&self) -> u64
        ensures { result ≡ unsafe_of self.now }
    {
        self.end - self.safe
    }

    /// Appends the entry of a payload and answers its end. `Full` comes before `Spent`. Within the reserved room it
    /// takes no memory. It copies the payload once, into the buffer. A refusal changes nothing.
    pub fn append(&mut self, alloc: Global, payload: &[u8]) -> Result<u64, AppendRefusal>
        requires { IsPayload payload.now }
        ensures refused { IfSome (append_refusal self.old payload.now) (λ why. result ≡ Err why) }
        ensures taken { append_refusal self.old payload.now ≡ None → MatchResult result (λ end. (end ≡ end_of self.new) × (self.new ≡ appended payload.now self.old)) (λ why. why ≡ Memory) }
        ensures same { OnErr result (self.new ≡ self.old) }
        ensures room { append_refusal self.old payload.now ≡ None → entry_length payload.now ≤ self.old.room → IsOk result }
    {
        match self.refusal(payload) {
            Some(why) => Err(why),
            None => self.push(alloc, payload),
        }
    }

    /// Why an entry of this payload is refused, but for want of memory.
    pub fn refusal(&self, payload: &[u8]) -> Option<AppendRefusal>
        requires { IsPayload payload.now }
        ensures { result ≡ append_refusal self.now payload.now }
    {
        let len = (payload.len() + ENVELOPE) as u64;
        if MOST_UNSAFE < self.end - self.safe + len {
            return Some(AppendRefusal::Full(self.end - self.safe));
        }
        if LAST_POSITION < self.end + len {
            return Some(AppendRefusal::Spent(self.end));
        }
        None
    }

    /// Why the entries of two payloads, one behind the other, are refused together, but for want of memory.
    pub fn refusal_of_both(&self, first: &[u8], second: &[u8]) -> Option<AppendRefusal>
        requires first { IsPayload first.now }
        requires second { IsPayload second.now }
        ensures is { result ≡ append_both_refusal self.now first.now second.now }
        ensures each { result ≡ None → TakesBoth first.now second.now self.now }
    {
        let first_len = (first.len() + ENVELOPE) as u64;
        let second_len = (second.len() + ENVELOPE) as u64;
        if MOST_UNSAFE < self.end - self.safe + first_len + second_len {
            return Some(AppendRefusal::Full(self.end - self.safe));
        }
        let between = self.end + first_len;
        if LAST_POSITION < between {
            return Some(AppendRefusal::Spent(self.end));
        }
        if LAST_POSITION < between + second_len {
            return Some(AppendRefusal::Spent(between));
        }
        None
    }

    fn push(&mut self, alloc: Global, payload: &[u8]) -> Result<u64, AppendRefusal>
        requires payload { IsPayload payload.now }
        requires fits { append_refusal self.old payload.now ≡ None }
        ensures is { MatchResult result (λ end. (end ≡ end_of self.new) × (self.new ≡ appended payload.now self.old)) (λ why. (why ≡ Memory) × (self.new ≡ self.old)) }
        ensures room { entry_length payload.now ≤ self.old.room → IsOk result }
    {
        let len = payload.len() + ENVELOPE;
        self.ends.reserve(1)?;
        self.buffer.push_entry(alloc, self.end, payload)?;
        let end = self.end + len as u64;
        self.ends.push_back_reserved(end);
        self.end = end;
        self.room = self.room.saturating_sub(len);
        Ok(end)
    }

    /// Makes the room for this many bytes of entries.
    pub fn reserve(&mut self, alloc: Global, bytes: usize) -> Result<(), AllocError>
        ensures ok { OnOk result (self.new ≡ reserved bytes self.old) }
        ensures err { OnErr result (self.new ≡ self.old) }
    {
        self.buffer.reserve(alloc, bytes)?;
        self.ends.reserve(bytes / (ENVELOPE + 1) + 1)?;
        self.room = self.room.max(bytes);
        Ok(())
    }

    // No write reaches past here.
    fn window(&self) -> u64
        ensures { result ≡ window_of self.now }
    {
        self.safe + WINDOW * self.header.layout.period()
    }

    /// The next write of the stream. None comes where nothing is buffered, or the write would pass the window of four
    /// periods above the safe position. The memory for `sent` is taken.
    pub fn next_flush(&mut self, alloc: Global) -> Result<Option<ObjectOp>, AllocError>
        ensures given { IfOk result (λ op. op ≡ option_map (offer_op self.old) (flush_of self.old)) }
        ensures offer { OnOk result (self.new ≡ offered (flush_of self.old) self.old) }
        ensures err { OnErr result (self.new ≡ self.old) }
        ensures span { MaySend self.old (flush_of self.old) }
    {
        let window = self.window();
        if self.end == self.flushed || self.flushed == window {
            self.offer = None;
            return Ok(None);
        }
        let extent = self
            .header
            .layout
            .extent(self.flushed, self.end.min(window));
        let bytes = self.buffer.front(alloc, extent.len as usize)?;
        self.sent.reserve()?;
        self.offer = Some(Offer::Flush(self.flushed + extent.len as u64));
        let name = journal_object(self.rank, extent.index);
        Ok(Some(written(name, extent.offset, bytes)))
    }

    // The end of the run of whole sets of which every removal is acknowledged.
    fn trimmed(&self) -> u64
        ensures { result ≡ trimmed_of self.now }
    {
        let layout = &self.header.layout;
        let set = self.removals.lowest(self.removing) / layout.sc() as u64;
        if (self.trimmed + layout.period() - 1) / layout.period() < set {
            set * layout.period()
        } else {
            self.trimmed
        }
    }

    /// The header that stands when everything below `expire` is expired. None comes where its expire and write are those
    /// of the last header that was sent. The memory for `sent` is taken.
    pub fn next_head(&mut self, alloc: Global, expire: u64) -> Result<Option<ObjectOp>, AllocError>
        requires trimmed { trimmed_of self.old ≤ expire }
        requires safe { expire ≤ self.old.safe }
        ensures given { IfOk result (λ op. op ≡ option_map (offer_op self.old) (head_of self.old expire)) }
        ensures offer { OnOk result (self.new ≡ offered (head_of self.old expire) self.old) }
        ensures err { OnErr result (self.new ≡ self.old) }
        ensures sound { self.old.safe < 2 ^ 62 → IsHeader (header_now self.old expire) }
    {
        if expire == self.header.expire && self.safe == self.header.write {
            self.offer = None;
            return Ok(None);
        }
        let header = Header {
            trimmed: self.trimmed(),
            expire,
            write: self.safe,
            layout: self.header.layout,
            format: self.header.format,
            phase: self.header.phase,
            epoch: self.header.epoch,
        };
        let bytes = header.write(alloc)?;
        self.heads.reserve()?;
        self.offer = Some(Offer::Head(header));
        Ok(Some(written(journal_object(self.rank, 0), 0, bytes)))
    }

    /// The removal of the least object that was not sent, where its set lies wholly below the expire of the last header
    /// that was acknowledged. The memory for `sent` is taken.
    pub fn next_purge(&mut self, _alloc: Global) -> Result<Option<ObjectOp>, AllocError>
        ensures given { IfOk result (λ op. op ≡ option_map (offer_op self.old) (removal_of self.old)) }
        ensures offer { OnOk result (self.new ≡ offered (removal_of self.old) self.old) }
        ensures err { OnErr result (self.new ≡ self.old) }
    {
        let layout = &self.header.layout;
        let set_end = (self.removing / layout.sc() as u64 + 1) * layout.period();
        if self.live < set_end {
            self.offer = None;
            return Ok(None);
        }
        self.removals.reserve()?;
        self.offer = Some(Offer::Removal(self.removing));
        Ok(Some(ObjectOp {
            name: journal_object(self.rank, self.removing),
            act: ObjectAct::Remove,
        }))
    }

    /// Whether this number is above each that is out.
    pub fn is_new(&self, op: OpNo) -> bool
        ensures yes { IsTrue result → IsNew op self.now }
        ensures no { result ≡ false → IsNew op self.now → ⊥ }
    {
        self.sent.is_below(op.0) && self.heads.is_below(op.0) && self.removals.is_below(op.0)
    }

    /// The operation that is out with the least number, and its object.
    pub fn oldest_sent(&self) -> Option<(OpNo, ObjectName)>
        ensures { result ≡ oldest_sent self.now }
    {
        let write = self.write_out(self.sent.first());
        let head = self.head_out(self.heads.first());
        let removal = self.removal_out(self.removals.first());
        earlier(write, earlier(head, removal))
    }

    fn write_out(&self, write: Option<Sent>) -> Option<(OpNo, ObjectName)>
        ensures { result ≡ option_map (write_out self.now) write }
    {
        let write = write?;
        let spot = self.header.layout.place(write.from);
        Some((OpNo(write.op), journal_object(self.rank, spot.index)))
    }

    fn head_out(&self, head: Option<Sent>) -> Option<(OpNo, ObjectName)>
        ensures { result ≡ option_map (head_out self.now) head }
    {
        let head = head?;
        Some((OpNo(head.op), journal_object(self.rank, 0)))
    }

    fn removal_out(&self, removal: Option<Sent>) -> Option<(OpNo, ObjectName)>
        ensures { result ≡ option_map (removal_out self.now) removal }
    {
        let removal = removal?;
        Some((OpNo(removal.op), journal_object(self.rank, removal.from)))
    }

    /// What was given last is sent, with this number, which is above each that is out.
    pub fn sent(&mut self, op: OpNo)
        requires given { IsSome self.old.offer }
        requires newest { IsNew op self.old }
        ensures { self.new ≡ sent_on op self.old.offer self.old }
    {
        match self.offer {
            Some(Offer::Flush(to)) => self.flush_sent(op.0, to),
            Some(Offer::Head(header)) => self.head_sent(op.0, header),
            Some(Offer::Removal(index)) => self.removal_sent(op.0, index),
            None => {}
        }
    }

    fn flush_sent(&mut self, op: u64, to: u64)
        requires given { self.old.offer ≡ Some (Flush to) }
        requires newest { IsNew op self.old }
        ensures { self.new ≡ taken op (Flush to) self.old }
    {
        let from = self.flushed;
        self.buffer.release((to - from) as usize);
        self.flushed = to;
        self.sent.push(Sent { op, from, to });
        self.offer = None;
    }

    fn head_sent(&mut self, op: u64, header: Header)
        requires given { self.old.offer ≡ Some (Head header) }
        requires newest { IsNew op self.old }
        ensures { self.new ≡ taken op (Head header) self.old }
    {
        self.heads.push(Sent {
            op,
            from: header.trimmed,
            to: header.expire,
        });
        self.header = header;
        self.offer = None;
    }

    fn removal_sent(&mut self, op: u64, index: u64)
        requires given { self.old.offer ≡ Some (Removal index) }
        requires newest { IsNew op self.old }
        ensures { self.new ≡ taken op (Removal index) self.old }
    {
        self.removals.push(Sent {
            op,
            from: index,
            to: index + 1,
        });
        self.removing = index + 1;
        self.offer = None;
    }

    /// The operation of this number is acknowledged; it answers the safe position before and after. Where it is
    /// found takes as many steps as the logarithm of how many are out. What became safe is let go, each end once.
    pub fn acked(&mut self, op: OpNo) -> Acked
        ensures is { self.new ≡ acknowledged op self.old }
        ensures from { result.from ≡ self.old.safe }
        ensures to { result.to ≡ self.new.safe }
        ensures done { IsDone self.old op (acked_to self.old op) }
        ensures rises { self.old.safe ≤ self.new.safe }
        ensures last { IsLast self.old.safe self.old.ends (acked_to self.old op) self.new.safe }
    {
        let from = self.safe;
        let _ = self.sent.settle(op.0);
        self.live = expire_after(self.heads.settle(op.0), self.live);
        let _ = self.removals.settle(op.0);
        let done = self.sent.lowest(self.flushed);
        self.safe = safe_below(&mut self.ends, from, done);
        Acked {
            from,
            to: self.safe,
        }
    }

    /// The operation that cuts an object of this size to what stands below the tail. None comes exactly where no byte of
    /// it is at or above the tail.
    pub fn tail_truncate(&self, index: u64, size: u64) -> Option<ObjectOp>
        ensures { MatchOption result (IsBelowTail (layout_of self.now) self.now.tail index size) (Truncates self.now.rank (layout_of self.now) self.now.tail index size) }
    {
        tail_cut(self.rank, &self.header.layout, self.tail, index, size)
    }
}

/// Of two operations the one with the lesser number.
fn earlier(
    a: Option<(OpNo, ObjectName)>,
    b: Option<(OpNo, ObjectName)>,
) -> Option<(OpNo, ObjectName)>
    ensures { result ≡ earlier a b }
{
    match (a, b) {
        (None, b) => b,
        (Some(a), None) => Some(a),
        (Some(a), Some(b)) => { if a.0.0 <= b.0.0 { Some(a) } else { Some(b) } }
    }
}

/// The expire of a header that is acknowledged, or else the one before.
fn expire_after(head: Option<Sent>, live: u64) -> u64
    ensures { result ≡ expire_of head live }
{
    match head {
        Some(head) => head.to,
        None => live,
    }
}

/// Lets go the ends that are not above a position, and answers the last of them.
fn safe_below(ends: &mut VecDeque<u64>, before: u64, at: u64) -> u64
    ensures safe { result ≡ last_end before ends.old.items at }
    ensures ends { ends.new.items ≡ ends_above ends.old.items at }
    ensures room { spare ends.old ≤ spare ends.new }
{
    let mut last = before;
    'done: while let Some(end) = ends.front() {
        if at < *end {
            break;
        }
        last = *end;
        let _ = ends.pop_front();
    }
    last
}

fn written(name: ObjectName, at: u32, bytes: Vec<u8>) -> ObjectOp
    ensures { result ≡ record { name = name; act = Write at bytes.items } }
{
    ObjectOp {
        name,
        act: ObjectAct::Write {
            at: at as u64,
            bytes: Items::from_vec(bytes),
        },
    }
}

/// The first object of the first set that lies wholly at or above a position.
fn first_object(layout: &Layout, at: u64) -> u64
    requires striping { IsStriping layout.now }
    requires below { at ≤ 2 ^ 62 }
    ensures { result ≡ first_set layout.now at * layout.now.sc }
{
    let period = layout.period();
    (at + period - 1) / period * layout.sc() as u64
}
