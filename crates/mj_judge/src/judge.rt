//! The first damage of a table.

ghost use Rattle.std.specs.Prelude.{◌≡◌, ℕ, map, IfOk};
ghost use Rattle.std.specs.Option.{option_map};
ghost use Rattle.mj_base.specs.declared.damage.Damage.TheVariants as damage;
ghost use Rattle.mj_cells.specs.Next.{cell_of};
ghost use Rattle.mj_tables.specs.Layered.{early_cells};
ghost use Rattle.mj_recovery.specs.Damage.{least, twice, headless, first_open, over, over_entries};
ghost use Rattle.mj_judge.specs.Rows.{count_in, version_at, kept_of};
ghost use Rattle.mj_judge.specs.Judged.{held, lone, wrong_counts, beyond, next_of, wrong_opens, wrong_replies, too_much, kept_inodes, found_damage, opens, entry_times, link_times, place_times, open_times};

use crate::counts::Counts;
use crate::dentries::{full_inodes, kind_inodes, link_dirs, link_inodes, remotes};
use crate::kinds::kinds_of;
use crate::lowest::{least, least_client};
use crate::opened::{first_open, opened_inodes};
use crate::parts::{kept_replies, next_ino, opens, sessions};
use crate::range::{push_low, push_not_given, push_unknown};
use crate::rows::{
    bad_opens, bad_replies, headless, kept_of, lone_among, miscounted, over_dirs, reply_clients,
    twice,
};
use crate::stray::push_misnamed;
use mj_base::{ClientId, Damage, Ino, Kind, RankNo};
use mj_cells::CellView;
use mj_tables::Layers;
use mj_tree::{MOST_INODES, MOST_OPENS, MOST_SESSIONS};
use std::alloc::{AllocError, Global};
use std::collections::BTreeSet;

fn missing_head(
    alloc: Global,
    rank: RankNo,
    layers: &Layers,
    dirs: &BTreeSet<Ino>,
) -> Result<Option<Damage>, AllocError>
    ensures { IfOk result (λ o. o ≡ option_map damage.DirfragMissing (least (headless (version_at (early_cells layers.now)) (held rank dirs.now.keys)))) }
{
    let found = headless(alloc, layers, rank, dirs)?;
    match least(&found) {
        Some(dir) => Ok(Some(Damage::DirfragMissing(dir))),
        None => Ok(None),
    }
}

fn repeated(alloc: Global, inodes: &[Ino]) -> Result<Vec<Ino>, AllocError>
    ensures { IfOk result (λ v. v.items ≡ twice inodes.now) }
{
    let counts = Counts::of_inodes(alloc, inodes.len(), inodes)?;
    twice(alloc, &counts, inodes)
}

fn two_primaries(alloc: Global, inodes: &[Ino]) -> Result<Option<Damage>, AllocError>
    ensures { IfOk result (λ o. o ≡ option_map damage.TwoPrimaries (least (twice inodes.now))) }
{
    let found = repeated(alloc, inodes)?;
    match least(&found) {
        Some(ino) => Ok(Some(Damage::TwoPrimaries(ino))),
        None => Ok(None),
    }
}

fn lone(
    alloc: Global,
    rank: RankNo,
    dirs: &BTreeSet<Ino>,
    cells: &[CellView<'_>],
) -> Result<Vec<Ino>, AllocError>
    ensures { IfOk result (λ v. v.items ≡ lone rank (map cell_of cells.now) dirs.now.keys) }
{
    let remotes = remotes(alloc, dirs, cells)?;
    if remotes.is_empty() {
        return Ok(Vec::new(alloc));
    }
    let kinds = kinds_of(alloc, rank, dirs, cells)?;
    lone_among(alloc, &kinds, &remotes)
}

fn no_primary(
    alloc: Global,
    rank: RankNo,
    dirs: &BTreeSet<Ino>,
    cells: &[CellView<'_>],
) -> Result<Option<Damage>, AllocError>
    ensures { IfOk result (λ o. o ≡ option_map damage.NoPrimary (least (lone rank (map cell_of cells.now) dirs.now.keys))) }
{
    let found = lone(alloc, rank, dirs, cells)?;
    match least(&found) {
        Some(ino) => Ok(Some(Damage::NoPrimary(ino))),
        None => Ok(None),
    }
}

fn wrong_counts(
    alloc: Global,
    rank: RankNo,
    dirs: &BTreeSet<Ino>,
    links: &Counts,
    cells: &[CellView<'_>],
) -> Result<Vec<Ino>, AllocError>
    requires { (k : ℕ) → count_in links.now k ≡ link_times (map cell_of cells.now) dirs.now.keys k }
    ensures { IfOk result (λ v. v.items ≡ wrong_counts rank (map cell_of cells.now) dirs.now.keys) }
{
    miscounted(alloc, rank, dirs, links, cells)
}

fn bad_links(
    alloc: Global,
    rank: RankNo,
    dirs: &BTreeSet<Ino>,
    links: &Counts,
    cells: &[CellView<'_>],
) -> Result<Option<Damage>, AllocError>
    requires { (k : ℕ) → count_in links.now k ≡ link_times (map cell_of cells.now) dirs.now.keys k }
    ensures { IfOk result (λ o. o ≡ option_map damage.BadLinks (least (wrong_counts rank (map cell_of cells.now) dirs.now.keys))) }
{
    let found = wrong_counts(alloc, rank, dirs, links, cells)?;
    match least(&found) {
        Some(ino) => Ok(Some(Damage::BadLinks(ino))),
        None => Ok(None),
    }
}

fn beyond(
    alloc: Global,
    rank: RankNo,
    next: Ino,
    inodes: &[Ino],
    lump_dirs: &[Ino],
    cells: &[CellView<'_>],
) -> Result<Vec<Ino>, AllocError>
    ensures { IfOk result (λ v. v.items ≡ beyond rank next inodes.now lump_dirs.now (map cell_of cells.now)) }
{
    let mut found = Vec::new(alloc);
    push_low(&mut found, rank, next)?;
    push_not_given(&mut found, rank, next, inodes)?;
    push_unknown(&mut found, rank, next, lump_dirs)?;
    push_misnamed(alloc, &mut found, rank, cells)?;
    Ok(found)
}

fn bad_next(
    alloc: Global,
    rank: RankNo,
    layers: &Layers,
    inodes: &[Ino],
    lump_dirs: &[Ino],
    cells: &[CellView<'_>],
) -> Result<Option<Damage>, AllocError>
    ensures { IfOk result (λ o. o ≡ option_map damage.BadNext (least (beyond rank (next_of (early_cells layers.now)) inodes.now lump_dirs.now (map cell_of cells.now)))) }
{
    let next = next_ino(layers).unwrap_or(Ino(0));
    let found = beyond(alloc, rank, next, inodes, lump_dirs, cells)?;
    match least(&found) {
        Some(ino) => Ok(Some(Damage::BadNext(ino))),
        None => Ok(None),
    }
}

fn wrong_opens(
    alloc: Global,
    rank: RankNo,
    layers: &Layers,
    dirs: &BTreeSet<Ino>,
    places: &[(ClientId, Ino)],
    cells: &[CellView<'_>],
) -> Result<Vec<(ClientId, Ino)>, AllocError>
    requires { places.now ≡ opens (map cell_of cells.now) }
    ensures { IfOk result (λ v. v.items ≡ wrong_opens rank (early_cells layers.now) (map cell_of cells.now) dirs.now.keys) }
{
    if places.is_empty() {
        return Ok(Vec::new(alloc));
    }
    let inodes = kind_inodes(alloc, rank, dirs, Kind::File, cells)?;
    let files = Counts::of_inodes(alloc, inodes.len(), &inodes)?;
    bad_opens(alloc, layers, &files, places)
}

fn bad_open(
    alloc: Global,
    rank: RankNo,
    layers: &Layers,
    dirs: &BTreeSet<Ino>,
    places: &[(ClientId, Ino)],
    cells: &[CellView<'_>],
) -> Result<Option<Damage>, AllocError>
    requires { places.now ≡ opens (map cell_of cells.now) }
    ensures { IfOk result (λ o. o ≡ first_open (wrong_opens rank (early_cells layers.now) (map cell_of cells.now) dirs.now.keys)) }
{
    let found = wrong_opens(alloc, rank, layers, dirs, places, cells)?;
    first_open(alloc, &found)
}

fn wrong_replies(
    alloc: Global,
    layers: &Layers,
    cells: &[CellView<'_>],
) -> Result<Vec<ClientId>, AllocError>
    ensures { IfOk result (λ v. v.items ≡ wrong_replies (early_cells layers.now) (map cell_of cells.now)) }
{
    let done = kept_replies(alloc, cells)?;
    let clients = reply_clients(alloc, &done)?;
    let counts = Counts::of_clients(alloc, &clients)?;
    bad_replies(alloc, layers, &counts, &done)
}

fn bad_session(
    alloc: Global,
    layers: &Layers,
    cells: &[CellView<'_>],
) -> Result<Option<Damage>, AllocError>
    ensures { IfOk result (λ o. o ≡ option_map damage.BadSession (least (wrong_replies (early_cells layers.now) (map cell_of cells.now)))) }
{
    let found = wrong_replies(alloc, layers, cells)?;
    match least_client(&found) {
        Some(client) => Ok(Some(Damage::BadSession(client))),
        None => Ok(None),
    }
}

// How often the inode of each of these opens stands there.
fn place_counts(alloc: Global, places: &[(ClientId, Ino)]) -> Result<Counts, AllocError>
    ensures { IfOk result (λ c. (k : ℕ) → count_in c k ≡ place_times places.now k) }
{
    let inodes = opened_inodes(alloc, places)?;
    let counts = Counts::of_inodes(alloc, inodes.len(), &inodes)?;
    Ok(counts)
}

/// How often the inode of each open stands there.
pub fn open_counts(alloc: Global, cells: &[CellView<'_>]) -> Result<Counts, AllocError>
    ensures { IfOk result (λ c. (k : ℕ) → count_in c k ≡ open_times (map cell_of cells.now) k) }
{
    let places = opens(alloc, cells)?;
    place_counts(alloc, &places)
}

/// How many links name each inode.
pub fn link_counts(
    alloc: Global,
    dirs: &BTreeSet<Ino>,
    cells: &[CellView<'_>],
) -> Result<Counts, AllocError>
    ensures { IfOk result (λ c. (k : ℕ) → count_in c k ≡ link_times (map cell_of cells.now) dirs.now.keys k) }
{
    let inodes = link_inodes(alloc, dirs, cells)?;
    let counts = Counts::of_inodes(alloc, inodes.len(), &inodes)?;
    Ok(counts)
}

/// How many entries each directory has.
pub fn entry_counts(
    alloc: Global,
    dirs: &BTreeSet<Ino>,
    cells: &[CellView<'_>],
) -> Result<Counts, AllocError>
    ensures { IfOk result (λ c. (k : ℕ) → count_in c k ≡ entry_times (map cell_of cells.now) dirs.now.keys k) }
{
    let inodes = link_dirs(alloc, dirs, cells)?;
    let counts = Counts::of_inodes(alloc, dirs.len(), &inodes)?;
    Ok(counts)
}

// Those that a link or an open keeps.
fn kept_among(
    alloc: Global,
    links: &Counts,
    inodes: &[Ino],
    places: &[(ClientId, Ino)],
) -> Result<Vec<Ino>, AllocError>
    ensures { IfOk result (λ v. v.items ≡ kept_of (count_in links.now) (place_times places.now) inodes.now) }
{
    let opens = place_counts(alloc, places)?;
    kept_of(alloc, links, &opens, inodes)
}

/// The inodes of full dentries that a link or an open keeps.
pub fn kept_inodes(
    alloc: Global,
    rank: RankNo,
    dirs: &BTreeSet<Ino>,
    cells: &[CellView<'_>],
) -> Result<Vec<Ino>, AllocError>
    ensures { IfOk result (λ v. v.items ≡ kept_inodes rank (map cell_of cells.now) dirs.now.keys) }
{
    let links = link_counts(alloc, dirs, cells)?;
    let inodes = full_inodes(alloc, rank, dirs, cells)?;
    let places = opens(alloc, cells)?;
    kept_among(alloc, &links, &inodes, &places)
}

fn over_entries(
    alloc: Global,
    dirs: &BTreeSet<Ino>,
    cells: &[CellView<'_>],
) -> Result<Option<u64>, AllocError>
    ensures { IfOk result (λ o. o ≡ over_entries (entry_times (map cell_of cells.now) dirs.now.keys) dirs.now.keys) }
{
    let counts = entry_counts(alloc, dirs, cells)?;
    let found = over_dirs(alloc, &counts, dirs)?;
    match least(&found) {
        Some(dir) => Ok(Some(counts.count(dir.0))),
        None => Ok(None),
    }
}

fn over(limit: u64, n: usize) -> Option<u64>
    ensures { result ≡ over limit n }
{
    let n = n as u64;
    if limit < n { Some(n) } else { None }
}

fn too_much(
    alloc: Global,
    dirs: &BTreeSet<Ino>,
    links: &Counts,
    inodes: &[Ino],
    places: &[(ClientId, Ino)],
    cells: &[CellView<'_>],
) -> Result<Option<u64>, AllocError>
    requires { places.now ≡ opens (map cell_of cells.now) }
    ensures { IfOk result (λ o. o ≡ too_much (count_in links.now) inodes.now (map cell_of cells.now) dirs.now.keys) }
{
    if let Some(n) = over_entries(alloc, dirs, cells)? {
        return Ok(Some(n));
    }
    let kept = kept_among(alloc, links, inodes, places)?;
    if let Some(n) = over(MOST_INODES, kept.len()) {
        return Ok(Some(n));
    }
    let sessions = sessions(alloc, cells)?;
    if let Some(n) = over(MOST_SESSIONS, sessions.len()) {
        return Ok(Some(n));
    }
    Ok(over(MOST_OPENS, places.len()))
}

fn over_limit(
    alloc: Global,
    dirs: &BTreeSet<Ino>,
    links: &Counts,
    inodes: &[Ino],
    places: &[(ClientId, Ino)],
    cells: &[CellView<'_>],
) -> Result<Option<Damage>, AllocError>
    requires links { (k : ℕ) → count_in links.now k ≡ link_times (map cell_of cells.now) dirs.now.keys k }
    requires places { places.now ≡ opens (map cell_of cells.now) }
    ensures { IfOk result (λ o. o ≡ option_map damage.OverLimit (too_much (link_times (map cell_of cells.now) dirs.now.keys) inodes.now (map cell_of cells.now) dirs.now.keys)) }
{
    match too_much(alloc, dirs, links, inodes, places, cells)? {
        Some(n) => Ok(Some(Damage::OverLimit(n))),
        None => Ok(None),
    }
}

/// The first damage of these cells, all of which `layers` has, where the first directories are the reachable ones, and the
/// last those of live lumps.
#[tactic(auto, using(crate::proofs::FirstSome::first_hits, crate::proofs::FirstSome::first_skips))]
pub fn found_damage(
    alloc: Global,
    rank: RankNo,
    layers: &Layers,
    dirs: &BTreeSet<Ino>,
    lump_dirs: &[Ino],
    cells: &[CellView<'_>],
) -> Result<Option<Damage>, AllocError>
    ensures { IfOk result (λ o. o ≡ found_damage rank (early_cells layers.now) (map cell_of cells.now) dirs.now.keys lump_dirs.now) }
{
    if let Some(damage) = missing_head(alloc, rank, layers, dirs)? {
        return Ok(Some(damage));
    }
    let inodes = full_inodes(alloc, rank, dirs, cells)?;
    if let Some(damage) = two_primaries(alloc, &inodes)? {
        return Ok(Some(damage));
    }
    if let Some(damage) = no_primary(alloc, rank, dirs, cells)? {
        return Ok(Some(damage));
    }
    let links = link_counts(alloc, dirs, cells)?;
    if let Some(damage) = bad_links(alloc, rank, dirs, &links, cells)? {
        return Ok(Some(damage));
    }
    if let Some(damage) = bad_next(alloc, rank, layers, &inodes, lump_dirs, cells)? {
        return Ok(Some(damage));
    }
    let places = opens(alloc, cells)?;
    if let Some(damage) = bad_open(alloc, rank, layers, dirs, &places, cells)? {
        return Ok(Some(damage));
    }
    if let Some(damage) = bad_session(alloc, layers, cells)? {
        return Ok(Some(damage));
    }
    over_limit(alloc, dirs, &links, &inodes, &places, cells)
}
