//! Why a range was not read.

ghost use Rattle.std.specs.Prelude.{◌≡◌};
ghost use Rattle.mj_probe.specs.Ranges.{range_refusal};
ghost use Rattle.mj_probe.specs.declared.refusal.RangeRefusal.TheVariants.{Memory as range_memory};

use mj_store::{ReadRefusal, StoreFault};
use std::alloc::AllocError;

/// Why the bytes of a range were not read.
#[derive(Clone, Copy, Debug, PartialEq, Eq)]
pub enum RangeRefusal {
    /// The least position of the range that has no byte.
    Hole(u64),
    Store(StoreFault),
    /// Want of memory.
    Memory,
}

impl From<ReadRefusal> for RangeRefusal {
    ghost from_gives = { λ refusal e. e ≡ range_refusal refusal };

    fn from(refusal: ReadRefusal) -> Self {
        match refusal {
            ReadRefusal::Failed(fault) => RangeRefusal::Store(fault),
            ReadRefusal::Memory => RangeRefusal::Memory,
        }
    }
}

impl From<AllocError> for RangeRefusal {
    ghost from_gives = { λ _ e. e ≡ range_memory };

    fn from(_: AllocError) -> Self {
        RangeRefusal::Memory
    }
}
