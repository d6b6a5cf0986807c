//! Why a world refuses.

use mj_rank::{MountRefusal, RankRefusal};
use mj_store::StoreFault;

/// Why a world refuses a step.
#[derive(Drop)]
pub enum WorldRefusal {
    /// No rank serves, or none is mounting.
    Stopped,
    /// A rank serves or mounts already.
    Mounted,
    Rank(RankRefusal),
    Mount(MountRefusal),
    Store(StoreFault),
    Memory,
}
