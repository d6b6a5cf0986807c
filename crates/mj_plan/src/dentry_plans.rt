//! What a change makes of dentries, each under its place, when a link ends or a name moves.

ghost use Rattle.std.specs.Prelude.{◌≡◌, ◌-◌, Some, None, IfOk, OnOk, option_map};
ghost use Rattle.mj_base.specs.ObjectName.{hex};
ghost use Rattle.mj_maps.specs.Map.{get, insert, remove, empty};
ghost use Rattle.mj_tree.specs.State.{attributes_of, is_kept, link_count, record_of};
ghost use Rattle.mj_tree.specs.declared.request.ClientRequest.{ClientRequest};
ghost use Rattle.mj_cells.specs.Table.{dentry_of};
ghost use Rattle.mj_cache.specs.Cached.{early_table, early_tree};
ghost use Rattle.mj_delta.specs.Events.{full_place};
ghost use Rattle.mj_delta.specs.Plan.Naming.{Full};
ghost use Rattle.mj_delta.specs.Plan.{naming, is_place, left_place, left_dentries, where_dir, unlink_plan, with_dentry, move_plan, replace_plan};
ghost use Rattle.mj_cache.specs.HasTree.{HasTree};
ghost use Rattle.mj_plan.specs.Planning.{naming_of, dentries_in, plan_in};

use crate::fulls::{FullDentry, full_of};
use crate::lumps::with_links;
use mj_base::{Ino, InodeRecord, Kind, Name, RankNo};
use mj_cache::{Cache, dentry_at};
use mj_cells::CellValue;
use mj_recovery::stray_ino;
use mj_tree::is_dir;
use std::alloc::{AllocError, Global};
use std::collections::BTreeMap;

/// What a dentry says, versions aside: the record of its inode, or the inode and its kind.
#[derive(Drop)]
pub enum Naming {
    Full(InodeRecord),
    Remote(Ino, Kind),
}

/// What each dentry that changes says afterwards, and nothing where it goes.
pub type Dentries = BTreeMap<(Ino, Name), Option<Naming>>;

/// The dentries that change, and the directory that goes.
#[derive(Drop)]
pub struct DentryPlan {
    pub dentries: Dentries,
    pub removed: Option<Ino>,
}

// A dentry says this afterwards.
fn put(dentries: &mut Dentries, place: (Ino, Name), says: Option<Naming>) -> Result<(), AllocError>
    ensures { OnOk result (dentries_in dentries.new ≡ insert (dentries_in dentries.old) place (option_map naming_of says)) }
{
    dentries.insert(place, says)?;
    Ok(())
}

fn copy_place(alloc: Global, place: &(Ino, Name)) -> Result<(Ino, Name), AllocError>
    ensures { IfOk result (λ same. same ≡ place.now) }
{
    Ok((place.0, place.1.copy(alloc)?))
}

fn no_dentries(alloc: Global) -> Dentries
    ensures { dentries_in result ≡ empty }
{
    BTreeMap::new(alloc)
}

// ---- a link that ends

/// The name of an inode in stray: its number in hexadecimal.
pub fn stray_name(alloc: Global, ino: Ino) -> Result<Name, AllocError>
    ensures { IfOk result (λ name. name ≡ hex ino) }
{
    let number = ino.0;
    let text = format!(in alloc; "{number:x}")?;
    match Name::read(alloc, text.as_bytes()) {
        Ok(name) => Ok(name),
        Err(_) => Err(AllocError),
    }
}

fn stands_at(full: &FullDentry<'_>, place: &(Ino, Name)) -> bool
    ensures { result ≡ is_place (full.now.dir, full.now.name.now) place.now }
{
    full.dir == place.0 && *full.name == place.1
}

// Where the full dentry stands once the link is gone: where it stood, or in stray.
fn left_place(
    alloc: Global,
    rank: RankNo,
    place: &(Ino, Name),
    ino: Ino,
    full: &FullDentry<'_>,
) -> Result<(Ino, Name), AllocError>
    ensures { IfOk result (λ left. left ≡ left_place rank place.now ino (full.now.dir, full.now.name.now)) }
{
    if stands_at(full, place) {
        Ok((stray_ino(rank), stray_name(alloc, ino)?))
    } else {
        Ok((full.dir, full.name.copy(alloc)?))
    }
}

// Whether anything names the inode but this link of it.
fn is_kept_without(cache: &Cache, place: &(Ino, Name), ino: Ino, full: &FullDentry<'_>) -> bool
    requires tree { HasTree cache.now }
    requires link { get (early_tree cache.now).links place.now ≡ Some ino }
    requires links { full.now.inode.now.links ≡ link_count (early_tree cache.now) ino }
    ensures { result ≡ is_kept (record (early_tree cache.now) { links = remove (early_tree cache.now).links place.now }) ino }
{
    full.inode.links > 1 || cache.opens_of(ino) > 0
}

// The full dentry counts one link less.
fn one_link_less(
    alloc: Global,
    rank: RankNo,
    place: &(Ino, Name),
    ino: Ino,
    full: &FullDentry<'_>,
) -> Result<Dentries, AllocError>
    ensures { IfOk result (λ dentries. dentries_in dentries ≡ insert (insert empty (left_place rank place.now ino (full.now.dir, full.now.name.now)) (Some (Full (record_of ino (full.now.inode.now.links - 1) (attributes_of full.now.inode.now))))) place.now None) }
{
    let links = full.inode.links.saturating_sub(1);
    let inode = with_links(alloc, ino, full.inode, links)?;
    let left = left_place(alloc, rank, place, ino, full)?;
    let mut dentries = no_dentries(alloc);
    put(&mut dentries, left, Some(Naming::Full(inode)))?;
    put(&mut dentries, copy_place(alloc, place)?, None)?;
    Ok(dentries)
}

// The full dentry goes with the link.
fn last_link(
    alloc: Global,
    place: &(Ino, Name),
    full: &FullDentry<'_>,
) -> Result<Dentries, AllocError>
    ensures { IfOk result (λ dentries. dentries_in dentries ≡ insert (insert empty (full.now.dir, full.now.name.now) None) place.now None) }
{
    let mut dentries = no_dentries(alloc);
    let name = full.name.copy(alloc)?;
    put(&mut dentries, (full.dir, name), None)?;
    put(&mut dentries, copy_place(alloc, place)?, None)?;
    Ok(dentries)
}

fn left_of(
    alloc: Global,
    cache: &Cache,
    place: &(Ino, Name),
    ino: Ino,
    full: &FullDentry<'_>,
) -> Result<Dentries, AllocError>
    requires tree { HasTree cache.now }
    requires link { get (early_tree cache.now).links place.now ≡ Some ino }
    requires links { full.now.inode.now.links ≡ link_count (early_tree cache.now) ino }
    ensures { IfOk result (λ dentries. dentries_in dentries ≡ left_dentries cache.now.rank (early_tree cache.now) place.now ino (full.now.dir, full.now.name.now) (Some (attributes_of full.now.inode.now))) }
{
    if is_kept_without(cache, place, ino, full) {
        one_link_less(alloc, cache.rank(), place, ino, full)
    } else {
        last_link(alloc, place, full)
    }
}

// The link goes, and what it leaves of the full dentry of its inode.
fn left_dentries(
    alloc: Global,
    cache: &Cache,
    place: &(Ino, Name),
    ino: Ino,
) -> Result<Dentries, AllocError>
    requires tree { HasTree cache.now }
    requires link { get (early_tree cache.now).links place.now ≡ Some ino }
    ensures { IfOk result (λ dentries. (r : ClientRequest) → dentries_in dentries ≡ left_dentries cache.now.rank (early_tree cache.now) place.now ino (full_place cache.now.rank (early_table cache.now) r ino) (get (early_tree cache.now).records ino)) }
{
    match full_of(cache, ino) {
        Some(full) => left_of(alloc, cache, place, ino, &full),
        None => Ok(no_dentries(alloc)),
    }
}

fn where_dir(cache: &Cache, ino: Ino) -> Option<Ino>
    requires tree { HasTree cache.now }
    ensures { result ≡ where_dir (early_tree cache.now) ino }
{
    if is_dir(cache, ino) { Some(ino) } else { None }
}

/// The link of an inode goes.
pub fn unlink_plan(
    alloc: Global,
    cache: &Cache,
    place: &(Ino, Name),
    ino: Ino,
) -> Result<DentryPlan, AllocError>
    requires tree { HasTree cache.now }
    requires link { get (early_tree cache.now).links place.now ≡ Some ino }
    ensures { IfOk result (λ plan. (r : ClientRequest) → plan_in plan ≡ unlink_plan cache.now.rank (early_tree cache.now) place.now ino (full_place cache.now.rank (early_table cache.now) r ino)) }
{
    let dentries = left_dentries(alloc, cache, place, ino)?;
    let removed = where_dir(cache, ino);
    Ok(DentryPlan { dentries, removed })
}

// ---- a name that moves

fn naming_of(alloc: Global, value: &CellValue) -> Result<Option<Naming>, AllocError>
    ensures { IfOk result (λ says. option_map naming_of says ≡ naming (dentry_of value.now)) }
{
    match value {
        CellValue::Full(_, inode) => Ok(Some(Naming::Full(inode.copy(alloc)?))),
        CellValue::Remote(_, ino, kind) => Ok(Some(Naming::Remote(*ino, *kind))),
        _ => Ok(None),
    }
}

// What stands at a place.
fn naming_at(
    alloc: Global,
    cache: &Cache,
    place: &(Ino, Name),
) -> Result<Option<Naming>, AllocError>
    ensures { IfOk result (λ says. option_map naming_of says ≡ naming (get (early_table cache.now).dentries place.now)) }
{
    match dentry_at(alloc, cache, place.0, &place.1)? {
        Some(value) => naming_of(alloc, value),
        None => Ok(None),
    }
}

// What stands at a place goes to another.
fn move_dentry(
    alloc: Global,
    cache: &Cache,
    from: &(Ino, Name),
    to: &(Ino, Name),
    dentries: &mut Dentries,
) -> Result<(), AllocError>
    ensures { OnOk result (dentries_in dentries.new ≡ with_dentry (early_table cache.now) from.now to.now (dentries_in dentries.old)) }
{
    let says = naming_at(alloc, cache, from)?;
    put(dentries, copy_place(alloc, to)?, says)?;
    put(dentries, copy_place(alloc, from)?, None)
}

/// A name moves to a free place.
pub fn move_plan(
    alloc: Global,
    cache: &Cache,
    from: &(Ino, Name),
    to: &(Ino, Name),
) -> Result<DentryPlan, AllocError>
    ensures { IfOk result (λ plan. plan_in plan ≡ move_plan (early_table cache.now) from.now to.now) }
{
    let mut dentries = no_dentries(alloc);
    move_dentry(alloc, cache, from, to, &mut dentries)?;
    Ok(DentryPlan {
        dentries,
        removed: None,
    })
}

/// A name moves to the place of the link of another inode, which goes.
pub fn replace_plan(
    alloc: Global,
    cache: &Cache,
    from: &(Ino, Name),
    to: &(Ino, Name),
    other: Ino,
) -> Result<DentryPlan, AllocError>
    requires tree { HasTree cache.now }
    requires link { get (early_tree cache.now).links to.now ≡ Some other }
    ensures { IfOk result (λ plan. (r : ClientRequest) → plan_in plan ≡ replace_plan cache.now.rank (early_table cache.now) (early_tree cache.now) from.now to.now other (full_place cache.now.rank (early_table cache.now) r other)) }
{
    let mut dentries = left_dentries(alloc, cache, to, other)?;
    move_dentry(alloc, cache, from, to, &mut dentries)?;
    let removed = where_dir(cache, other);
    Ok(DentryPlan { dentries, removed })
}
