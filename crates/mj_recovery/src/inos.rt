//! The inode numbers that a rank begins with.

ghost use Rattle.std.specs.Prelude.{◌≡◌};
ghost use Rattle.mj_base.specs.ObjectName.{stray_ino, first_ino};

use mj_base::{Ino, RankNo};

/// The root.
pub const ROOT: Ino = Ino(1);

/// The stray directory of a rank.
pub fn stray_ino(rank: RankNo) -> Ino
    ensures { result ≡ stray_ino rank }
{
    Ino(0x600 + 10 * u64::from(rank.number()))
}

/// The first inode number that a rank gives.
pub fn first_ino(rank: RankNo) -> Ino
    ensures { result ≡ first_ino rank }
{
    Ino((u64::from(rank.number()) + 1) << 40)
}
