//! The numbers that are out of a rank's range.

ghost use Rattle.std.specs.Prelude.{◌≡◌, ◌++◌, filter, not, IfOk, OnOk};
ghost use Rattle.mj_recovery.specs.Damage.{is_given, is_known, low_next};

use mj_base::{Ino, RankNo};
use mj_recovery::{ROOT, first_ino, stray_ino};
use std::alloc::{AllocError, Global};

fn is_given(rank: RankNo, next: Ino, ino: Ino) -> bool
    ensures { result ≡ is_given rank next ino }
{
    first_ino(rank) <= ino && ino < next
}

/// The next inode, where it is below all that the rank gives.
pub fn push_low(found: &mut Vec<Ino>, rank: RankNo, next: Ino) -> Result<(), AllocError>
    ensures { OnOk result (found.new.items ≡ found.old.items ++ low_next rank next) }
{
    if next < first_ino(rank) {
        found.push(next)?;
    }
    Ok(())
}

/// The inodes that the rank has not given.
pub fn push_not_given(
    found: &mut Vec<Ino>,
    rank: RankNo,
    next: Ino,
    inodes: &[Ino],
) -> Result<(), AllocError>
    ensures { OnOk result (found.new.items ≡ found.old.items ++ filter (λ i. not (is_given rank next i)) inodes.now) }
{
    for ino in inodes {
        if !is_given(rank, next, *ino) {
            found.push(*ino)?;
        }
    }
    Ok(())
}

/// The directories that are neither the root nor stray nor given.
pub fn push_unknown(
    found: &mut Vec<Ino>,
    rank: RankNo,
    next: Ino,
    dirs: &[Ino],
) -> Result<(), AllocError>
    ensures { OnOk result (found.new.items ≡ found.old.items ++ filter (λ d. not (is_known rank next d)) dirs.now) }
{
    for dir in dirs {
        let known = *dir == ROOT || *dir == stray_ino(rank) || is_given(rank, next, *dir);
        if !known {
            found.push(*dir)?;
        }
    }
    Ok(())
}
