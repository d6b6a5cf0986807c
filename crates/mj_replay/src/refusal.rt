//! Why a journal was not read.

ghost use Rattle.std.specs.Prelude.{◌≡◌};
ghost use Rattle.mj_replay.specs.Replays.{of_read};
ghost use Rattle.mj_replay.specs.declared.refusal.JournalRefusal.TheVariants.{Store as journal_store, Memory as journal_memory};

use mj_base::Damage;
use mj_store::{ReadRefusal, StoreFault};
use std::alloc::{AllocError, AllocFailed};

/// Why the live journal of a store was not read.
#[derive(Debug, Drop)]
pub enum JournalRefusal {
    /// The first damage of the header and the events.
    Damage(Damage),
    Store(StoreFault),
    /// Want of memory.
    Memory,
}

impl From<AllocError> for JournalRefusal {
    ghost from_gives = { λ _ e. e ≡ journal_memory };

    fn from(_: AllocError) -> Self {
        JournalRefusal::Memory
    }
}

impl<T: Drop> From<AllocFailed<T>> for JournalRefusal {
    ghost from_gives = { λ _ e. e ≡ journal_memory };

    fn from(_: AllocFailed<T>) -> Self {
        JournalRefusal::Memory
    }
}

impl From<StoreFault> for JournalRefusal {
    ghost from_gives = { λ fault e. e ≡ journal_store fault };

    fn from(fault: StoreFault) -> Self {
        JournalRefusal::Store(fault)
    }
}

impl From<ReadRefusal> for JournalRefusal {
    ghost from_gives = { λ refusal e. e ≡ of_read refusal };

    fn from(refusal: ReadRefusal) -> Self {
        match refusal {
            ReadRefusal::Failed(fault) => JournalRefusal::Store(fault),
            ReadRefusal::Memory => JournalRefusal::Memory,
        }
    }
}
