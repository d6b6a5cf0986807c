//! The operations on a tree, each as its refusals in order and then what it changes.

ghost use Rattle.std.specs.Prelude.{◌≡◌, true, None, Some};
ghost use Rattle.mj_maps.specs.Map.{get};
ghost use Rattle.mj_tree.specs.State.{is_dir};
ghost use Rattle.mj_tree.specs.Row.{is_full, has_all_inodes, at_new, make, link, unlink, rmdir, rename, rename_over, set_attr, open_file, release};
ghost use Rattle.mj_tree.specs.Walk.{found};
ghost use Rattle.mj_tree.specs.Given.{Gives};

use crate::change::{Attributes, Change, Settings};
use crate::errno::{EEXIST, EINVAL, EISDIR, EMLINK, ENOENT, ENOSPC, ENOTDIR, ENOTEMPTY, Stop};
use crate::limits::{MOST_ENTRIES, MOST_INODES, MOST_LINKS, MOST_OPENS};
use crate::view::{TreeView, is_dir, is_file, is_symlink};
use crate::walking::{begins, place, walk};
use mj_base::{ClientId, Ino, Name, Path};
use std::alloc::Global;

fn is_full<V: TreeView>(view: &V, dir: Ino) -> bool
    ensures { result ≡ is_full (V.tree view.now) dir }
{
    view.entry_count(dir) >= MOST_ENTRIES
}

fn has_all_inodes<V: TreeView>(view: &V, next: Ino) -> bool
    requires next { next ≡ (V.tree view.now).next }
    ensures { result ≡ has_all_inodes (V.tree view.now) }
{
    view.inode_count() >= MOST_INODES || next.0 == u64::MAX
}

// Whether a link may stand here.
#[tactic(auto, unfolding(crate::specs::Row::at_new))]
fn at_new<V: TreeView>(alloc: Global, view: &V, place: &(Ino, Name)) -> Result<(), Stop>
    requires dir { is_dir (V.tree view.now) place.now.0 ≡ true }
    ensures { Gives result (at_new (V.tree view.now) place.now) }
{
    if view.link_at(alloc, place.0, &place.1)?.is_some() {
        return Err(Stop::Refused(EEXIST));
    }
    if is_full(view, place.0) {
        return Err(Stop::Refused(ENOSPC));
    }
    Ok(())
}

// The inode that is linked here.
fn named<V: TreeView>(alloc: Global, view: &V, place: &(Ino, Name)) -> Result<Ino, Stop>
    requires dir { is_dir (V.tree view.now) place.now.0 ≡ true }
    ensures { Gives result (found (get (V.tree view.now).links place.now)) }
{
    match view.link_at(alloc, place.0, &place.1)? {
        Some(ino) => Ok(ino),
        None => Err(Stop::Refused(ENOENT)),
    }
}

/// A new directory, file or symlink.
#[tactic(auto, unfolding(crate::specs::Row::make))]
pub fn make<V: TreeView>(
    alloc: Global,
    view: &V,
    path: &Path,
    attributes: Attributes,
) -> Result<(Ino, Change), Stop>
    ensures { Gives result (make (V.tree view.now) path.now attributes) }
{
    let place = place(alloc, view, path, EEXIST)?;
    at_new(alloc, view, &place)?;
    let next = view.next_ino();
    if has_all_inodes(view, next) {
        return Err(Stop::Refused(ENOSPC));
    }
    Ok((next, Change::Begin { place, attributes }))
}

#[tactic(auto, unfolding(crate::specs::Row::link))]
pub fn link<V: TreeView>(
    alloc: Global,
    view: &V,
    from: &Path,
    to: &Path,
) -> Result<(Ino, Change), Stop>
    ensures { Gives result (link (V.tree view.now) from.now to.now) }
{
    let ino = walk(alloc, view, from)?;
    if is_dir(view, ino) {
        return Err(Stop::Refused(EISDIR));
    }
    let place = place(alloc, view, to, EEXIST)?;
    at_new(alloc, view, &place)?;
    if view.link_count(ino) >= MOST_LINKS {
        return Err(Stop::Refused(EMLINK));
    }
    Ok((ino, Change::Link { place, ino }))
}

#[tactic(auto, unfolding(crate::specs::Row::unlink))]
pub fn unlink<V: TreeView>(alloc: Global, view: &V, path: &Path) -> Result<(Ino, Change), Stop>
    ensures { Gives result (unlink (V.tree view.now) path.now) }
{
    let place = place(alloc, view, path, EISDIR)?;
    let ino = named(alloc, view, &place)?;
    if is_dir(view, ino) {
        return Err(Stop::Refused(EISDIR));
    }
    Ok((ino, Change::Unlink { place, ino }))
}

#[tactic(auto, unfolding(crate::specs::Row::rmdir))]
pub fn rmdir<V: TreeView>(alloc: Global, view: &V, path: &Path) -> Result<(Ino, Change), Stop>
    ensures { Gives result (rmdir (V.tree view.now) path.now) }
{
    let place = place(alloc, view, path, EINVAL)?;
    let ino = named(alloc, view, &place)?;
    if !is_dir(view, ino) {
        return Err(Stop::Refused(ENOTDIR));
    }
    if view.entry_count(ino) > 0 {
        return Err(Stop::Refused(ENOTEMPTY));
    }
    Ok((ino, Change::Unlink { place, ino }))
}

// The inode moves to a free place.
#[tactic(auto, unfolding(crate::specs::Row::rename_over))]
fn rename_to<V: TreeView>(
    view: &V,
    from: (Ino, Name),
    ino: Ino,
    to: (Ino, Name),
) -> Result<(Ino, Change), Stop>
    ensures { Gives result (rename_over (V.tree view.now) from ino to None) }
{
    let (old, new) = (from.0, to.0);
    if old != new && is_full(view, new) {
        return Err(Stop::Refused(ENOSPC));
    }
    Ok((ino, Change::Move { from, to, ino }))
}

// The inode moves to the place of another.
#[tactic(auto, unfolding(crate::specs::Row::rename_over))]
fn rename_over<V: TreeView>(
    view: &V,
    from: (Ino, Name),
    ino: Ino,
    to: (Ino, Name),
    other: Ino,
) -> Result<(Ino, Change), Stop>
    ensures { Gives result (rename_over (V.tree view.now) from ino to (Some other)) }
{
    if ino == other {
        return Ok((ino, Change::Nothing));
    }
    if is_dir(view, other) && !is_dir(view, ino) {
        return Err(Stop::Refused(EISDIR));
    }
    if is_dir(view, ino) && !is_dir(view, other) {
        return Err(Stop::Refused(ENOTDIR));
    }
    if view.entry_count(other) > 0 {
        return Err(Stop::Refused(ENOTEMPTY));
    }
    Ok((
        ino,
        Change::Replace {
            from,
            to,
            ino,
            other,
        },
    ))
}

// The inode moves to a place, where another may stand.
fn rename_at<V: TreeView>(
    alloc: Global,
    view: &V,
    from: (Ino, Name),
    ino: Ino,
    to: (Ino, Name),
) -> Result<(Ino, Change), Stop>
    requires dir { is_dir (V.tree view.now) to.0 ≡ true }
    ensures { Gives result (rename_over (V.tree view.now) from ino to (get (V.tree view.now).links to)) }
{
    match view.link_at(alloc, to.0, &to.1)? {
        Some(other) => rename_over(view, from, ino, to, other),
        None => rename_to(view, from, ino, to),
    }
}

#[tactic(auto, unfolding(crate::specs::Row::rename))]
pub fn rename<V: TreeView>(
    alloc: Global,
    view: &V,
    from: &Path,
    to: &Path,
) -> Result<(Ino, Change), Stop>
    ensures { Gives result (rename (V.tree view.now) from.now to.now) }
{
    if from.names().is_empty() || to.names().is_empty() {
        return Err(Stop::Refused(EINVAL));
    }
    let old = place(alloc, view, from, EINVAL)?;
    let ino = named(alloc, view, &old)?;
    if is_dir(view, ino) && begins(from.names(), to.names()) {
        return Err(Stop::Refused(EINVAL));
    }
    let new = place(alloc, view, to, EINVAL)?;
    rename_at(alloc, view, old, ino, new)
}

#[tactic(auto, unfolding(crate::specs::Row::set_attr))]
pub fn set_attr<V: TreeView>(
    alloc: Global,
    view: &V,
    path: &Path,
    settings: Settings,
) -> Result<(Ino, Change), Stop>
    ensures { Gives result (set_attr (V.tree view.now) path.now settings) }
{
    if path.names().is_empty() {
        return Err(Stop::Refused(EINVAL));
    }
    let ino = walk(alloc, view, path)?;
    if settings.size != 0 && !is_file(view, ino) {
        return Err(Stop::Refused(EINVAL));
    }
    Ok((ino, Change::Set { ino, settings }))
}

#[tactic(auto, unfolding(crate::specs::Row::open_file))]
pub fn open_file<V: TreeView>(
    alloc: Global,
    view: &V,
    client: ClientId,
    path: &Path,
) -> Result<(Ino, Change), Stop>
    ensures { Gives result (open_file (V.tree view.now) client path.now) }
{
    let ino = walk(alloc, view, path)?;
    if is_dir(view, ino) {
        return Err(Stop::Refused(EISDIR));
    }
    if is_symlink(view, ino) {
        return Err(Stop::Refused(EINVAL));
    }
    if !view.is_open(client, ino) && view.open_count() >= MOST_OPENS {
        return Err(Stop::Refused(ENOSPC));
    }
    Ok((ino, Change::Hold { client, ino }))
}

#[tactic(auto, unfolding(crate::specs::Row::release))]
pub fn release<V: TreeView>(view: &V, client: ClientId, ino: Ino) -> Result<(Ino, Change), Stop>
    ensures { Gives result (release (V.tree view.now) client ino) }
{
    if !view.is_open(client, ino) {
        return Err(Stop::Refused(ENOENT));
    }
    Ok((ino, Change::Release { client, ino }))
}
