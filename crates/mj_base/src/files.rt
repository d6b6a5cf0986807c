//! Files by name, as the program reads and writes them.

ghost use Rattle.std.specs.Prelude.{◌≡◌, ◌⊎◌, ◌<◌, ◌≤◌, ℕ, Option, option_map, vec_len};
ghost use Rattle.std.specs.Prelude.{OnOk, OnErr, IfOk, IfErr, IsErrOf};
ghost use Rattle.mj_base.specs.declared.files.FileRefusal.TheVariants.{TooLong, Failed, Memory};
ghost use Rattle.mj_base.specs.Files.{FilesByName, IfTold, IsRefusalOf, with_file};
ghost use Rattle.mj_base.specs.Counts.{Rose};

use crate::limits::MAX_FILE_BYTES;
use std::alloc::{AllocError, AllocFailed, Global};

/// Why a file was not read or written.
#[derive(Clone, Copy, Debug, PartialEq, Eq)]
pub enum FileRefusal {
    /// No file of this name is held.
    Missing,
    /// The file has this number of bytes, which is above `MAX_FILE_BYTES`.
    TooLong(u64),
    /// A fault of the files, which was counted.
    Failed,
    /// Want of memory.
    Memory,
}

impl From<AllocError> for FileRefusal {
    ghost from_gives = { λ _ e. e ≡ Memory };

    fn from(_: AllocError) -> Self {
        FileRefusal::Memory
    }
}

impl<T: Drop> From<AllocFailed<T>> for FileRefusal {
    ghost from_gives = { λ _ e. e ≡ Memory };

    fn from(_: AllocFailed<T>) -> Self {
        FileRefusal::Memory
    }
}

/// Files by name. Where they tell their contents, a refused call leaves those as they were.
pub trait Files {
    /// The files by name; none where they are not told.
    ghost told: { Self → Option FilesByName };

    /// How often a call has failed. It never falls.
    ghost faults: { Self → ℕ };

    /// The bytes of the file of this name. No file is changed.
    fn read(&mut self, alloc: Global, name: &str) -> Result<Vec<u8>, FileRefusal>
        // what is held under that name decides, but for a counted fault and want of memory
        ensures ok { IfTold (told self.old) (λ files.
            IfOk result (λ bytes. files name.now ≡ Some bytes.items)) }
        ensures err { IfTold (told self.old) (λ files.
            IfErr result (IsRefusalOf (files name.now))) }
        ensures unchanged { told self.new ≡ told self.old }

        // in any case
        ensures limit { IfOk result (λ bytes. vec_len bytes ≤ MAX_FILE_BYTES) }
        ensures too_long { (n : ℕ) → IsErrOf result (TooLong n) → MAX_FILE_BYTES < n }
        ensures failed { IsErrOf result Failed → Rose (faults self.old) (faults self.new) }
        ensures later { faults self.old ≤ faults self.new };

    /// Replaces the file of this name, which need not be there. No other file is changed.
    fn write(&mut self, alloc: Global, name: &str, bytes: &[u8]) -> Result<(), FileRefusal>
        ensures ok { OnOk result
            (told self.new ≡ option_map (with_file name.now bytes.now) (told self.old)) }
        ensures err { OnErr result (told self.new ≡ told self.old) }
        ensures kinds { IfErr result (λ e. (e ≡ Failed) ⊎ (e ≡ Memory)) }
        ensures failed { IsErrOf result Failed → Rose (faults self.old) (faults self.new) }
        ensures later { faults self.old ≤ faults self.new };
}
