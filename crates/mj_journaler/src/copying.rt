//! Copies of queues.

ghost use Rattle.std.specs.Prelude.{◌≡◌, ◌≤◌, IfOk};
ghost use Rattle.mj_journaler.specs.Ring.{spare};

use std::alloc::{AllocError, Global};
use std::collections::VecDeque;

/// A copy of a queue, with as much room.
pub fn copied<T: Copy>(alloc: Global, items: &VecDeque<T>) -> Result<VecDeque<T>, AllocError>
    ensures items { IfOk result (λ q. q.items ≡ items.now.items) }
    ensures room { IfOk result (λ q. spare items.now ≤ spare q) }
{
    let (front, back) = items.as_slices();
    let mut copy = Vec::with_capacity(alloc, items.capacity())?;
    copy.extend_from_slice(front)?;
    copy.extend_from_slice(back)?;
    Ok(VecDeque::from_vec(copy))
}
