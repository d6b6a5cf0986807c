//! Why there is no image.

ghost use Rattle.std.specs.Prelude.{◌≡◌};
ghost use Rattle.mj_image.specs.declared.refusal.ImageRefusal.TheVariants as read;
ghost use Rattle.mj_image.specs.declared.refusal.ImageWriteRefusal.TheVariants as write;

use std::alloc::AllocError;

/// Why bytes are no image. A number is the offset of the first wrong field, or of the first byte too many.
#[derive(Clone, Copy, Debug, PartialEq, Eq)]
pub enum ImageRefusal {
    /// They do not begin as an image does.
    BadMagic,
    /// There are this many bytes, which are too many.
    TooLarge(u64),
    /// The bytes end in a field.
    Truncated(u64),
    /// A text names no object.
    BadName(u64),
    /// A name or a key is not above the one before it.
    BadOrder(u64),
    /// A flag is neither 0 nor 1.
    BadFlag(u64),
    /// There are bytes behind the last object.
    Trailing(u64),
    /// There was no memory.
    Memory,
}

/// Why no image was written.
#[derive(Clone, Copy, Debug, PartialEq, Eq)]
pub enum ImageWriteRefusal {
    /// It would have this many bytes, which are too many.
    TooLong(u64),
    /// There was no memory.
    Memory,
}

impl From<AllocError> for ImageRefusal {
    ghost from_gives = { λ _ e. e ≡ read.Memory };

    fn from(_: AllocError) -> ImageRefusal {
        ImageRefusal::Memory
    }
}

impl From<AllocError> for ImageWriteRefusal {
    ghost from_gives = { λ _ e. e ≡ write.Memory };

    fn from(_: AllocError) -> ImageWriteRefusal {
        ImageWriteRefusal::Memory
    }
}
