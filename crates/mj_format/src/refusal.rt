//! Why a store was not formatted.

ghost use Rattle.std.specs.Prelude.{◌≡◌};
ghost use Rattle.mj_format.specs.Refusals.{of_perform};
ghost use Rattle.mj_format.specs.declared.refusal.FormatRefusal.TheVariants.{Store as format_store};

use mj_store::{OpNo, PerformRefusal, StoreFault};

/// Why a store was not formatted.
#[derive(Clone, Copy, Debug, PartialEq, Eq)]
pub enum FormatRefusal {
    /// There is a journal already.
    Formatted,
    Store(StoreFault),
    /// The operation with this number is not reported yet.
    Waiting(OpNo),
    /// Want of memory.
    Memory,
}

impl From<StoreFault> for FormatRefusal {
    ghost from_gives = { λ fault e. e ≡ format_store fault };

    fn from(fault: StoreFault) -> Self {
        FormatRefusal::Store(fault)
    }
}

impl From<PerformRefusal> for FormatRefusal {
    ghost from_gives = { λ refusal e. e ≡ of_perform refusal };

    fn from(refusal: PerformRefusal) -> Self {
        match refusal {
            PerformRefusal::Failed(fault) => FormatRefusal::Store(fault),
            PerformRefusal::Waiting(number) => FormatRefusal::Waiting(number),
            PerformRefusal::Memory => FormatRefusal::Memory,
        }
    }
}
