//! Walking paths in a tree. Symlinks are not followed.

ghost use Rattle.std.specs.Prelude.{◌≡◌, true, IfOk};
ghost use Rattle.mj_tree.specs.State.{root, is_dir};
ghost use Rattle.mj_tree.specs.Walk.{step, walk_from, walk, place, begins};
ghost use Rattle.mj_tree.specs.Given.{Gives};

use crate::errno::{ENOENT, ENOTDIR, Errno, Stop};
use crate::limits::ROOT;
use crate::view::{TreeView, is_dir};
use mj_base::{Ino, Name, Path};
use std::alloc::Global;

// One name further.
fn step<V: TreeView>(alloc: Global, view: &V, dir: Ino, name: &Name) -> Result<Ino, Stop>
    ensures { Gives result (step (V.tree view.now) dir name.now) }
{
    if !is_dir(view, dir) {
        return Err(Stop::Refused(ENOTDIR));
    }
    match view.link_at(alloc, dir, name)? {
        Some(ino) => Ok(ino),
        None => Err(Stop::Refused(ENOENT)),
    }
}

// Along the names from the root.
fn walk_names<V: TreeView>(alloc: Global, view: &V, names: &[Name]) -> Result<Ino, Stop>
    ensures { Gives result (walk_from (V.tree view.now) root names.now) }
{
    let mut at = ROOT;
    for name in names {
        at = step(alloc, view, at, name)?;
    }
    Ok(at)
}

/// The inode that a path names.
pub fn walk<V: TreeView>(alloc: Global, view: &V, path: &Path) -> Result<Ino, Stop>
    ensures { Gives result (walk (V.tree view.now) path.now) }
{
    walk_names(alloc, view, path.names())
}

/// The directory and the name in it that a path names. The root has none: for it the error is given.
pub fn place<V: TreeView>(
    alloc: Global,
    view: &V,
    path: &Path,
    root: Errno,
) -> Result<(Ino, Name), Stop>
    ensures place { Gives result (place (V.tree view.now) path.now root) }
    ensures dir { IfOk result (λ place. is_dir (V.tree view.now) place.0 ≡ true) }
{
    let Some((name, dirs)) = path.names().split_last() else {
        return Err(Stop::Refused(root));
    };
    let dir = walk_names(alloc, view, dirs)?;
    if !is_dir(view, dir) {
        return Err(Stop::Refused(ENOTDIR));
    }
    Ok((dir, name.copy(alloc)?))
}

/// Whether the first is a proper beginning of the second.
pub fn begins(from: &[Name], to: &[Name]) -> bool
    ensures { result ≡ begins from.now to.now }
{
    if to.len() <= from.len() {
        return false;
    }
    for i in 0..from.len() {
        if from[i] != to[i] {
            return false;
        }
    }
    true
}
