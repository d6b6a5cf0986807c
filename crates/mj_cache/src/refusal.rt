//! Why a table makes no cache.

use mj_base::Damage;
use std::alloc::{AllocError, AllocFailed};

/// The first damage of the table, or want of memory.
#[derive(Debug, Drop)]
pub enum CacheRefusal {
    NotTree(Damage),
    Memory,
}

impl From<AllocError> for CacheRefusal {
    ghost use Rattle.std.specs.Prelude.{◌≡◌};
    ghost use Rattle.mj_cache.specs.declared.refusal.CacheRefusal.TheVariants.{Memory};

    ghost from_gives = { λ _ e. e ≡ Memory };

    fn from(_e: AllocError) -> CacheRefusal {
        CacheRefusal::Memory
    }
}

impl<T: Drop> From<AllocFailed<T>> for CacheRefusal {
    ghost use Rattle.std.specs.Prelude.{◌≡◌};
    ghost use Rattle.mj_cache.specs.declared.refusal.CacheRefusal.TheVariants.{Memory};

    ghost from_gives = { λ _ e. e ≡ Memory };

    fn from(_e: AllocFailed<T>) -> CacheRefusal {
        CacheRefusal::Memory
    }
}
