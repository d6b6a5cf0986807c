//! Where the program's text goes.

ghost use Rattle.std.specs.Prelude.{◌≡◌, ◌<◌, ◌≤◌, ℕ, List, length, take, Option};
ghost use Rattle.std.specs.Prelude.{OnOk, OnErr, IfOk};
ghost use Rattle.mj_base.specs.Counts.{Rose};
ghost use Rattle.mj_base.specs.Sink.{then_taken, TakesFront};

/// A sink took nothing, and counted it.
#[derive(Clone, Copy, Debug, PartialEq, Eq)]
pub struct SinkFault;

/// What takes bytes, one piece after another.
pub trait Sink {
    /// The bytes taken so far; none where they are not told.
    ghost taken: { Self → Option (List ℕ) };

    /// How often a call has failed. It never falls.
    ghost faults: { Self → ℕ };

    /// Takes bytes from the front of the piece, and answers how many: at least one, unless the
    /// piece is empty.
    fn put(&mut self, bytes: &[u8]) -> Result<usize, SinkFault>
        ensures most { IfOk result (λ n. n ≤ length bytes.now) }
        ensures some { IfOk result (λ n. 0 < length bytes.now → 0 < n) }
        ensures ok { IfOk result (λ n.
            taken self.new ≡ then_taken (take n bytes.now) (taken self.old)) }
        ensures err { OnErr result (taken self.new ≡ taken self.old) }
        ensures cause { OnErr result (Rose (faults self.old) (faults self.new)) }
        ensures later { faults self.old ≤ faults self.new };
}

/// Puts the whole piece. At a fault a front of it, and not all of it, was taken.
pub fn put_all<K: Sink>(sink: &mut K, bytes: &[u8]) -> Result<(), SinkFault>
    ensures ok { OnOk result (K.taken sink.new ≡ then_taken bytes.now (K.taken sink.old)) }
    ensures err { OnErr result (TakesFront bytes.now (K.taken sink.old) (K.taken sink.new)) }
    ensures cause { OnErr result (Rose (K.faults sink.old) (K.faults sink.new)) }
    ensures later { K.faults sink.old ≤ K.faults sink.new }
{
    let mut at = 0;
    while at < bytes.len() {
        at += sink.put(&bytes[at..])?;
    }
    Ok(())
}
