//! The journal's writer: it buffers entries, gives the operations that bring them to the store, and takes acknowledgements.
//! It never calls a store.
#![tactic(auto)]

ghost use Rattle.std.specs.Prelude.{◌≡◌};
ghost use Rattle.mj_journaler.specs.declared.AppendRefusal.TheVariants.{Memory as want_of_memory};

mod buffer;
mod copying;
mod cutting;
mod journaler;
mod ring;
mod sent;

pub use cutting::tail_cut;
pub use journaler::Journaler;
pub use sent::{Offer, Sent};
use std::alloc::AllocError;

/// Why an entry was not appended.
#[derive(Clone, Copy, Debug, PartialEq, Eq)]
pub enum AppendRefusal {
    /// With the entry these unsafe bytes would pass 8,388,608.
    Full(u64),
    /// The entry that would begin here would end above 2^62 - 1.
    Spent(u64),
    /// Want of memory.
    Memory,
}

/// The safe position before and after an acknowledgement, equal for headers and removals.
#[derive(Clone, Copy, Debug, PartialEq, Eq)]
pub struct Acked {
    pub from: u64,
    pub to: u64,
}

impl From<AllocError> for AppendRefusal {
    ghost from_gives = { λ _ e. e ≡ want_of_memory };

    fn from(_: AllocError) -> Self {
        AppendRefusal::Memory
    }
}
