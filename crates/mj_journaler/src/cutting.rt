//! What is cut off of an object of the journal above the tail.

ghost use Rattle.std.specs.Prelude.{MatchOption};
ghost use Rattle.mj_journaler.specs.Cutting.{IsBelowTail, Truncates};

use mj_base::RankNo;
use mj_layout::{Layout, journal_object};
use mj_store::{ObjectAct, ObjectOp};

/// The operation that cuts an object of this size to what stands below the tail. None comes exactly where no byte of it is at or
/// above the tail.
pub fn tail_cut(rank: RankNo, layout: &Layout, tail: u64, index: u64, size: u64) -> Option<ObjectOp>
    ensures { MatchOption result (IsBelowTail layout.now tail index size) (Truncates rank layout.now tail index size) }
{
    layout.is_sound();
    let len = layout.front_below(index, tail);
    if size.min(layout.os() as u64) <= len as u64 {
        return None;
    }
    Some(ObjectOp {
        name: journal_object(rank, index),
        act: ObjectAct::Truncate { len: len as u64 },
    })
}
