//! The numbers of errors.

ghost use Rattle.std.specs.Prelude.{◌≡◌};
ghost use Rattle.mj_tree.specs.declared.errno.Stop.TheVariants.{Memory, Refused};

use std::alloc::AllocError;
use std::marker::Model;

/// An error's number, as Linux's `errno` has it.
#[derive(Clone, Copy, Debug, PartialEq, Eq)]
pub struct Errno(pub u16);

impl Model for Errno {
    ghost use Rattle.std.specs.Prelude.{ℕ, ◌<◌, ◌^◌};

    ghost Value = { ℕ };

    ghost view = { λ a. a.0 };

    ghost invariant = { λ a. a.0 < 2 ^ 16 };

    ghost inverse = { λ n. record { 0 = n } };
}

/// No such file or directory.
pub const ENOENT: Errno = Errno(2);
/// File exists.
pub const EEXIST: Errno = Errno(17);
/// Not a directory.
pub const ENOTDIR: Errno = Errno(20);
/// Is a directory.
pub const EISDIR: Errno = Errno(21);
/// Invalid argument.
pub const EINVAL: Errno = Errno(22);
/// No space left on device.
pub const ENOSPC: Errno = Errno(28);
/// Too many links.
pub const EMLINK: Errno = Errno(31);
/// Directory not empty.
pub const ENOTEMPTY: Errno = Errno(39);
/// Stale file handle.
pub const ESTALE: Errno = Errno(116);

/// Why a request is not done.
#[derive(Clone, Copy, Debug)]
pub enum Stop {
    Memory,
    Refused(Errno),
}

impl From<AllocError> for Stop {
    ghost from_gives = { λ _ e. e ≡ Memory };

    fn from(_e: AllocError) -> Stop {
        Stop::Memory
    }
}

impl From<Errno> for Stop {
    ghost from_gives = { λ code e. e ≡ Refused code };

    fn from(code: Errno) -> Stop {
        Stop::Refused(code)
    }
}
