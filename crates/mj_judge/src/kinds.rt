//! Full dentries by their inodes and kinds.

ghost use Rattle.std.specs.Prelude.{◌≡◌, ◌∷◌, ℕ, map, filter_map, IfOk};
ghost use Rattle.mj_base.specs.ObjectName.{stray_ino};
ghost use Rattle.mj_base.specs.declared.record.Kind.TheVariants.{Dir, File, Symlink};
ghost use Rattle.mj_cells.specs.Next.{cell_of};
ghost use Rattle.mj_recovery.specs.Damage.{times};
ghost use Rattle.mj_judge.specs.Rows.{count_in, kind_ino};

use crate::counts::Counts;
use crate::dentries::kind_inodes;
use mj_base::{Ino, Kind, RankNo};
use mj_cells::CellView;
use std::alloc::{AllocError, Global};
use std::collections::BTreeSet;

/// How many full dentries there are of each inode, by kind.
#[derive(Drop)]
pub struct Kinds {
    pub dirs: Counts,
    pub files: Counts,
    pub symlinks: Counts,
}

impl Kinds {
    ghost use Rattle.mj_judge.specs.Kinds.{is_kind};

    /// Whether there is one of this inode and kind.
    pub fn has(&self, ino: Ino, kind: Kind) -> bool
        ensures { result ≡ is_kind self.now ino kind }
    {
        match kind {
            Kind::Dir => self.dirs.has(ino.0),
            Kind::File => self.files.has(ino.0),
            Kind::Symlink => self.symlinks.has(ino.0),
        }
    }
}

fn kind_counts(
    alloc: Global,
    rank: RankNo,
    dirs: &BTreeSet<Ino>,
    kind: Kind,
    cells: &[CellView<'_>],
) -> Result<Counts, AllocError>
    ensures { IfOk result (λ c. (k : ℕ) → count_in c k ≡ times k (filter_map (kind_ino (stray_ino rank ∷ dirs.now.keys) kind) (map cell_of cells.now))) }
{
    let inodes = kind_inodes(alloc, rank, dirs, kind, cells)?;
    let counts = Counts::of_inodes(alloc, inodes.len(), &inodes)?;
    Ok(counts)
}

/// The full dentries of these directories and stray.
pub fn kinds_of(
    alloc: Global,
    rank: RankNo,
    dirs: &BTreeSet<Ino>,
    cells: &[CellView<'_>],
) -> Result<Kinds, AllocError>
    ensures dirs { IfOk result (λ c. (k : ℕ) → count_in c.dirs k ≡ times k (filter_map (kind_ino (stray_ino rank ∷ dirs.now.keys) Dir) (map cell_of cells.now))) }
    ensures files { IfOk result (λ c. (k : ℕ) → count_in c.files k ≡ times k (filter_map (kind_ino (stray_ino rank ∷ dirs.now.keys) File) (map cell_of cells.now))) }
    ensures symlinks { IfOk result (λ c. (k : ℕ) → count_in c.symlinks k ≡ times k (filter_map (kind_ino (stray_ino rank ∷ dirs.now.keys) Symlink) (map cell_of cells.now))) }
{
    let folders = kind_counts(alloc, rank, dirs, Kind::Dir, cells)?;
    let files = kind_counts(alloc, rank, dirs, Kind::File, cells)?;
    let symlinks = kind_counts(alloc, rank, dirs, Kind::Symlink, cells)?;
    Ok(Kinds {
        dirs: folders,
        files,
        symlinks,
    })
}
