//! How a call ends.

ghost use Rattle.std.specs.Prelude.{◌≡◌};
ghost use Rattle.mj_app.specs.Status.{code_of};

/// How a call ends. The program exits with its code.
#[derive(Clone, Copy, Debug, PartialEq, Eq)]
pub enum Status {
    /// Every line was worked, or the store was formatted, or no reply of a chronicle differs, and all text was taken.
    Done,
    /// Damage was named, or the image is none.
    Damage,
    /// The words are not served.
    Words,
    /// The store is formatted already, or a reply of a chronicle differs.
    Refused,
    Memory,
    /// The store failed, or an operation is waited for.
    Store,
    /// A named file is missing or too long, the image to be written is too long, or the files failed.
    Files,
    /// A line of the script or of the chronicle is outside the grammar.
    Grammar,
    /// The sink failed.
    Sink,
}

impl Status {
    pub fn code(self) -> u8
        ensures { result ≡ code_of self }
    {
        match self {
            Status::Done => 0,
            Status::Damage => 1,
            Status::Words => 2,
            Status::Refused => 3,
            Status::Memory => 4,
            Status::Store => 5,
            Status::Files => 6,
            Status::Grammar => 7,
            Status::Sink => 8,
        }
    }
}
