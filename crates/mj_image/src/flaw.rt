// Why an object is not read.

use mj_base::Fault;
use std::alloc::{AllocError, AllocFailed};

/// What is wrong with a field, with the number of the bytes from its first one to the end.
#[derive(Clone, Copy)]
pub enum Flaw {
    Cut(usize),
    BadName(usize),
    BadOrder(usize),
    BadFlag(usize),
}

/// Why reading stops.
#[derive(Clone, Copy)]
pub enum Stop {
    Memory,
    At(Flaw),
}

impl From<Fault> for Stop {
    ghost use Rattle.std.specs.Prelude.{◌≡◌};
    ghost use Rattle.mj_image.specs.Stops.{stop_of};

    ghost from_gives = { λ fault e. e ≡ stop_of fault };

    fn from(fault: Fault) -> Stop {
        match fault {
            Fault::Memory => Stop::Memory,
            Fault::Left(left) => Stop::At(Flaw::Cut(left)),
        }
    }
}

impl From<AllocError> for Stop {
    ghost use Rattle.std.specs.Prelude.{◌≡◌};
    ghost use Rattle.mj_image.specs.declared.flaw.Stop.TheVariants.{Memory};

    ghost from_gives = { λ _ e. e ≡ Memory };

    fn from(_: AllocError) -> Stop {
        Stop::Memory
    }
}

impl<T: Drop> From<AllocFailed<T>> for Stop {
    ghost use Rattle.std.specs.Prelude.{◌≡◌};
    ghost use Rattle.mj_image.specs.declared.flaw.Stop.TheVariants.{Memory};

    ghost from_gives = { λ _ e. e ≡ Memory };

    fn from(_: AllocFailed<T>) -> Stop {
        Stop::Memory
    }
}
