//! The directories of a journal's lumps.

ghost use Rattle.std.specs.Prelude.{◌≡◌, ◌&&◌, ◌∷◌, [], ℕ, Some, true};
ghost use Rattle.mj_recovery.specs.Damage.{head_written, is_known};
ghost use Rattle.mj_replay.specs.Lumps.{is_below, none_strange, lumps_known};

use mj_base::{Ino, RankNo};
use mj_cells::{CellKey, CellWrite};
use mj_recovery::{ROOT, first_ino, stray_ino};

/// What says, once the next inode is known, whether each directory of some lumps is the root, stray or one that the rank has given.
#[derive(Clone, Copy, Debug)]
pub struct LumpDirs {
    /// Whether one lies below all that the rank gives, and is neither the root nor stray.
    strange: bool,
    /// The greatest of those that the rank may have given.
    greatest: Option<Ino>,
}

fn is_below(next: Ino, greatest: Option<Ino>) -> bool
    ensures { result ≡ is_below next greatest }
{
    match greatest {
        Some(dir) => dir < next,
        None => true,
    }
}

fn greater(greatest: Option<Ino>, dir: Ino) -> Ino
    ensures { (next : ℕ) → is_below next (Some result) ≡ is_below next greatest && is_below next (Some dir) }
{
    match greatest {
        Some(other) if dir < other => other,
        _ => dir,
    }
}

// The directory whose head is written.
fn head_dir(w: &CellWrite) -> Option<Ino>
    ensures { result ≡ head_written w.now }
{
    match w.key {
        CellKey::DirHead(dir) => Some(dir),
        _ => None,
    }
}

impl LumpDirs {
    /// Those of no lumps.
    pub fn new() -> LumpDirs
        ensures { (next : ℕ) → none_strange next result ≡ true }
    {
        LumpDirs {
            strange: false,
            greatest: None,
        }
    }

    fn add(&mut self, rank: RankNo, dir: Ino)
        ensures { (next : ℕ) → none_strange next self.new ≡ none_strange next self.old && is_known rank next dir }
    {
        if dir == ROOT || dir == stray_ino(rank) {
            return;
        }
        if dir < first_ino(rank) {
            self.strange = true;
        } else {
            self.greatest = Some(greater(self.greatest, dir));
        }
    }

    fn add_write(&mut self, rank: RankNo, w: &CellWrite)
        ensures { (next : ℕ) → none_strange next self.new ≡ none_strange next self.old && lumps_known rank next (w.now ∷ []) }
    {
        if let Some(dir) = head_dir(w) {
            self.add(rank, dir);
        }
    }

    /// Adds those of the lumps that these writes are of.
    pub fn add_writes(&mut self, rank: RankNo, ws: &[CellWrite])
        ensures { (next : ℕ) → none_strange next self.new ≡ none_strange next self.old && lumps_known rank next ws.now }
    {
        for w in ws {
            self.add_write(rank, w);
        }
    }

    /// Whether each is the root, stray or given, with this next inode.
    pub fn are_known(&self, next: Ino) -> bool
        ensures { result ≡ none_strange next self.now }
    {
        !self.strange && is_below(next, self.greatest)
    }
}
