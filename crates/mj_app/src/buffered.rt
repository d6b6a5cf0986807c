//! A sink that is handed its bytes in large pieces.

ghost use Rattle.std.specs.Prelude.{◌≡◌, ◌≤◌, [], ◌++◌, length, drop};
ghost use Rattle.std.specs.Prelude.{OnOk, OnErr, if◌then◌else◌};
ghost use Rattle.mj_base.specs.Counts.{Rose};
ghost use Rattle.mj_app.specs.Buffered.{told_to, MissesLast};

use mj_base::{Sink, SinkFault};
use std::alloc::Global;

/// How many bytes are held at most.
const ROOM: usize = 64 * 1024;

/// Holds bytes until there are many of them, or they are flushed, and then puts them to the sink within.
#[derive(Drop)]
pub struct Buffered<K> {
    inner: K,
    held: Vec<u8>,
}

impl<K: Sink> Buffered<K> {
    /// Holds nothing yet.
    pub fn new(alloc: Global, inner: K) -> Buffered<K>
        ensures told { told_to K.taken result ≡ K.taken inner }
        ensures faults { K.faults result.inner ≡ K.faults inner }
    {
        Buffered {
            inner,
            held: Vec::new(alloc),
        }
    }

    /// Puts all that is held. At a fault what was not taken is still held.
    pub fn flush(&mut self) -> Result<(), SinkFault>
        ensures ok { OnOk result (K.taken self.new.inner ≡ told_to K.taken self.old) }
        ensures err { OnErr result (MissesLast (told_to K.taken self.old) (K.taken self.new.inner)) }
        ensures told { told_to K.taken self.new ≡ told_to K.taken self.old }
        ensures empty { OnOk result (self.new.held.items ≡ []) }
        ensures cause { OnErr result (Rose (K.faults self.old.inner) (K.faults self.new.inner)) }
        ensures later { K.faults self.old.inner ≤ K.faults self.new.inner }
    {
        while !self.held.is_empty() {
            let taken = self.inner.put(&self.held)?;
            self.drop_front(taken);
        }
        Ok(())
    }

    /// The sink within. What is still held is lost.
    pub fn into_inner(self) -> K
        ensures { result ≡ self.inner }
    {
        self.inner
    }

    fn drop_front(&mut self, count: usize)
        requires { count ≤ length self.old.held.items }
        ensures inner { self.new.inner ≡ self.old.inner }
        ensures held { self.new.held.items ≡ drop count self.old.held.items }
    {
        let left = self.held.len() - count;
        self.held.copy_within(count.., 0);
        self.held.truncate(left);
    }

    // Holds the bytes, where they fit and there is memory for them.
    fn hold(&mut self, bytes: &[u8]) -> bool
        ensures inner { self.new.inner ≡ self.old.inner }
        ensures held { self.new.held.items ≡ (if result then self.old.held.items ++ bytes.now else self.old.held.items) }
    {
        self.held.len() + bytes.len() <= ROOM && self.held.extend_from_slice(bytes).is_ok()
    }
}

impl<K: Sink> Sink for Buffered<K> {
    ghost taken = { λ b. told_to K.taken b };

    ghost faults = { λ b. K.faults b.inner };

    // A piece that cannot be held goes on to the sink within, once that has taken what was before it.
    fn put(&mut self, bytes: &[u8]) -> Result<usize, SinkFault> {
        if !self.hold(bytes) {
            self.flush()?;
            if !self.hold(bytes) {
                return self.inner.put(bytes);
            }
        }
        Ok(bytes.len())
    }
}
