//! The bytes that wait to be written.

ghost use Rattle.std.specs.Prelude.{◌≡◌, ◌+◌, ◌-◌, ◌*◌, ◌<◌, ◌≤◌, ◌^◌, ◌++◌, [], length, take, drop, is_ok, IsOk, IfOk, OnOk, OnErr, if◌then◌else◌};
ghost use Rattle.mj_journaler.specs.Buffered.{joined, first_block};
ghost use Rattle.mj_entry.specs.Entry.{entry_bytes, entry_length, IsPayload};

use mj_base::limits::ENVELOPE;
use mj_entry::entry_write;
use std::alloc::{AllocError, Global};
use std::collections::VecDeque;
use std::marker::Model;

/// The least capacity of a block.
const BLOCK: usize = 65_536;

/// Bytes that are added behind as whole entries and taken in front in any pieces. They lie in blocks, so an entry is
/// copied once, a block that is taken gives its memory back, and nothing else moves.
#[derive(Drop)]
pub struct Buffer {
    /// The blocks that are full, in order.
    full: VecDeque<Vec<u8>>,
    /// How many bytes of the first block are taken.
    taken: usize,
    /// The block that entries are added to.
    last: Vec<u8>,
}

impl Model for Buffer {
    ghost use Rattle.std.specs.Prelude.{◌-◌, ◌≤◌, ◌++◌, length, drop, vec_len, vec_capacity};
    ghost use Rattle.mj_journaler.specs.Buffered.{Buffered, joined, first_block};

    ghost Value = { Buffered };

    ghost view = { λ a. record { bytes = drop a.taken (joined a.full.items ++ a.last.items); room = vec_capacity a.last - vec_len a.last } };

    ghost invariant = { λ a. a.taken ≤ length (first_block a.full.items a.last.items) };
}

impl Buffer {
    pub fn new(alloc: Global) -> Buffer
        ensures { result.bytes ≡ [] }
    {
        Buffer {
            full: VecDeque::new(alloc),
            taken: 0,
            last: Vec::new(alloc),
        }
    }

    /// A buffer of these bytes, with room for so many more.
    pub fn holding(alloc: Global, bytes: Vec<u8>, room: usize) -> Result<Buffer, AllocError>
        ensures bytes { IfOk result (λ b. b.bytes ≡ bytes.items) }
        ensures room { IfOk result (λ b. room ≤ b.room) }
    {
        let mut last = bytes;
        last.reserve(room)?;
        Ok(Buffer {
            full: VecDeque::new(alloc),
            taken: 0,
            last,
        })
    }

    /// Makes room for this many bytes. Without memory it keeps what it has.
    pub fn reserve(&mut self, alloc: Global, bytes: usize) -> Result<(), AllocError>
        ensures bytes { self.new.bytes ≡ self.old.bytes }
        ensures room { OnOk result (bytes ≤ self.new.room) }
        ensures kept { self.old.room ≤ self.new.room }
        ensures succeeds { bytes ≤ self.old.room → IsOk result }
    {
        if bytes <= self.last.capacity() - self.last.len() {
            return Ok(());
        }
        self.full.reserve(1)?;
        let block = Vec::with_capacity(alloc, bytes.max(BLOCK))?;
        let before = std::mem::replace(&mut self.last, block);
        self.full.push_back_reserved(before);
        Ok(())
    }

    /// Adds the entry of a payload that begins at a position. It takes no memory where there is room.
    pub fn push_entry(&mut self, alloc: Global, at: u64, payload: &[u8]) -> Result<(), AllocError>
        requires { IsPayload payload.now }
        ensures bytes { self.new.bytes ≡ (if is_ok result then self.old.bytes ++ entry_bytes at payload.now else self.old.bytes) }
        ensures room { entry_length payload.now ≤ self.old.room → IsOk result × (self.old.room ≤ self.new.room + entry_length payload.now) }
        ensures kept { OnErr result (self.old.room ≤ self.new.room) }
    {
        self.reserve(alloc, payload.len() + ENVELOPE)?;
        entry_write(alloc, at, payload, &mut self.last)
    }

    /// A copy of the first n bytes.
    pub fn front(&self, alloc: Global, n: usize) -> Result<Vec<u8>, AllocError>
        requires { n ≤ length self.now.bytes }
        ensures { IfOk result (λ bytes. bytes.items ≡ take n self.now.bytes) }
    {
        copied(alloc, &self.full, self.taken, &self.last, n)
    }

    /// Lets the first n bytes go, and gives back the blocks that they filled.
    pub fn release(&mut self, n: usize)
        requires { n ≤ length self.old.bytes }
        ensures bytes { self.new.bytes ≡ drop n self.old.bytes }
        ensures room { self.old.room ≤ self.new.room }
    {
        self.taken = released(&mut self.full, self.taken, &self.last, n);
    }
}

/// A copy of n bytes of the blocks and the last one, behind those that are taken.
fn copied(
    alloc: Global,
    full: &VecDeque<Vec<u8>>,
    taken: usize,
    last: &[u8],
    n: usize,
) -> Result<Vec<u8>, AllocError>
    requires inside { taken ≤ length (first_block full.now.items last.now) }
    requires enough { taken + n ≤ length (joined full.now.items ++ last.now) }
    ensures { IfOk result (λ bytes. bytes.items ≡ take n (drop taken (joined full.now.items ++ last.now))) }
{
    let mut bytes = Vec::with_capacity(alloc, n)?;
    let mut start = taken;
    let mut left = n;
    let mut i = 0;
    'blocks: while let Some(block) = full.get(i) {
        let here = &block[start..];
        if left <= here.len() {
            bytes.extend_from_slice(&here[..left])?;
            return Ok(bytes);
        }
        bytes.extend_from_slice(here)?;
        left -= here.len();
        start = 0;
        i += 1;
    }
    bytes.extend_from_slice(&last[start..start + left])?;
    Ok(bytes)
}

/// Drops the blocks that n more bytes fill, and answers how many bytes of the first one are then taken.
fn released(full: &mut VecDeque<Vec<u8>>, taken: usize, last: &[u8], n: usize) -> usize
    requires inside { taken ≤ length (first_block full.old.items last.now) }
    requires enough { taken + n ≤ length (joined full.old.items ++ last.now) }
    ensures bytes { drop result (joined full.new.items ++ last.now) ≡ drop (taken + n) (joined full.old.items ++ last.now) }
    ensures inside { result ≤ length (first_block full.new.items last.now) }
{
    let mut start = taken;
    let mut left = n;
    'blocks: while let Some(block) = full.front() {
        let here = block.len() - start;
        if left < here {
            break;
        }
        left -= here;
        start = 0;
        let _ = full.pop_front();
    }
    start + left
}
