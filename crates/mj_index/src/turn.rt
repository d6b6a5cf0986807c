//! Whether no directory that has dentries begins or ceases to be reachable with a group of writes.

ghost use Rattle.std.specs.Prelude.{◌≡◌, ℕ, true, map, Some, IfOk, IfSome};
ghost use Rattle.std.specs.List.{AllByRecursion};
ghost use Rattle.std.specs.Option.{option_copied, option_and_then};
ghost use Rattle.mj_cells.specs.Table.{table_of, dentry_of};
ghost use Rattle.mj_recovery.specs.Tree.{is_among, subdir};
ghost use Rattle.mj_tables.specs.Layered.{early_cells, writes_key};
ghost use Rattle.mj_index.specs.Places.{dentry_key};
ghost use Rattle.mj_index.specs.Known.{known_at, is_dir_at};
ghost use Rattle.mj_index.specs.Indexed.{place_key};
ghost use Rattle.mj_index.specs.Said.{dir_named, left_dirs, led_dirs, written_dirs};
ghost use Rattle.mj_index.specs.Following.{early_value};
ghost use Rattle.mj_index.specs.Changes.{change_of, where_said, changes_over, cell_out, dirs_out};
ghost use Rattle.mj_index.specs.Course.{AreOnce};
ghost use Rattle.mj_index.specs.Gentle.{HasKeptWay};
ghost use Rattle.mj_index.specs.Turning.{keys_have, all_pass, is_bare, leaves_well, LeadsWell, IsGentleTurn, AreKeysOf, AreTheKeys, HasPlaceKept};

use crate::change::ChangeView;
use crate::known::{KnownInodes, is_same};
use crate::said::dir_named;
use mj_base::Ino;
use mj_cells::{CellKey, CellValue, CellWrite};
use mj_judge::{dir_of, subdir_in};
use mj_recovery::ROOT;
use mj_tables::Layers;
use std::alloc::{AllocError, Global};
use std::collections::BTreeSet;

// The keys of so many writes are compared with each other, rather than copied into a set.
const FEW: usize = 16;

/// The directories that the written dentries of reachable directories named before, and those that they name now.
#[derive(Drop)]
pub struct Turn {
    pub left: Vec<Ino>,
    pub led: Vec<Ino>,
}

// The keys of writes, where none is written twice.
fn written_keys(alloc: Global, ws: &[CellWrite]) -> Result<Option<BTreeSet<CellKey>>, AllocError>
    ensures { IfOk result (λ o. IfSome o (λ keys. AreKeysOf keys ws.now)) }
{
    let mut keys = BTreeSet::new(alloc);
    for i in (0..ws.len()).rev() {
        let key = ws[i].key.copy(alloc)?;
        if !keys.insert(key)? {
            return Ok(None);
        }
    }
    Ok(Some(keys))
}

fn is_written(ws: &[CellWrite], key: &CellKey) -> bool
    ensures { result ≡ writes_key key.now ws.now }
{
    for w in ws {
        if is_same(key, &w.key) {
            return true;
        }
    }
    false
}

// Whether no key is that of a later write too.
fn differ(ws: &[CellWrite]) -> bool
    ensures { result ≡ true → AreOnce ws.now }
{
    for i in 0..ws.len() {
        if is_written(&ws[i + 1..], &ws[i].key) {
            return false;
        }
    }
    true
}

// The keys of writes, of which it is asked which they are. Few are compared one by one, and many stand in a set.
#[derive(Drop)]
enum Keys<'a> {
    Few(&'a [CellWrite]),
    Many(BTreeSet<CellKey>),
}

impl<'a> Keys<'a> {
    // Those of these writes, where none is written twice.
    fn of_writes(alloc: Global, ws: &'a [CellWrite]) -> Result<Option<Keys<'a>>, AllocError>
        ensures { IfOk result (λ o. IfSome o (λ keys. AreTheKeys keys ws.now)) }
    {
        if ws.len() > FEW {
            return match written_keys(alloc, ws)? {
                Some(keys) => Ok(Some(Keys::Many(keys))),
                None => Ok(None),
            };
        }
        if differ(ws) {
            Ok(Some(Keys::Few(ws)))
        } else {
            Ok(None)
        }
    }

    fn have(&self, key: &CellKey) -> bool
        ensures { result ≡ keys_have self.now key.now }
    {
        match self {
            Keys::Few(ws) => is_written(ws, key),
            Keys::Many(keys) => keys.contains(key),
        }
    }
}

fn has(dirs: &BTreeSet<Ino>, dir: Ino) -> bool
    ensures { result ≡ is_among dirs.now.keys dir }
{
    dirs.contains(&dir)
}

fn set_of(alloc: Global, inodes: &[Ino]) -> Result<BTreeSet<Ino>, AllocError>
    ensures { IfOk result (λ set. (d : ℕ) → is_among set.keys d ≡ is_among inodes.now d) }
{
    let mut set = BTreeSet::new(alloc);
    for ino in inodes {
        set.insert(*ino)?;
    }
    Ok(set)
}

// The directory that the key of a change named before.
fn dir_named_before(known: &KnownInodes, change: &ChangeView<'_>) -> Option<Ino>
    ensures { result ≡ dir_named (is_dir_at known.now) (cell_out (change_of change.now)) }
{
    match change.before {
        Some(value) => dir_named(known, &change.write.key, value),
        None => None,
    }
}

fn left_dirs(
    alloc: Global,
    known: &KnownInodes,
    changes: &[ChangeView<'_>],
) -> Result<Vec<Ino>, AllocError>
    ensures { IfOk result (λ v. v.items ≡ dirs_out (is_dir_at known.now) (map change_of changes.now)) }
{
    let mut found = Vec::new(alloc);
    for change in changes {
        if let Some(dir) = dir_named_before(known, change) {
            found.push(dir)?;
        }
    }
    Ok(found)
}

fn led_dirs(alloc: Global, known: &KnownInodes, ws: &[CellWrite]) -> Result<Vec<Ino>, AllocError>
    ensures { IfOk result (λ v. v.items ≡ led_dirs (is_dir_at known.now) ws.now) }
{
    let mut found = Vec::new(alloc);
    for w in ws {
        if let Some(dir) = dir_named(known, &w.key, &w.value) {
            found.push(dir)?;
        }
    }
    Ok(found)
}

fn written_dirs(alloc: Global, ws: &[CellWrite]) -> Result<Vec<Ino>, AllocError>
    ensures { IfOk result (λ v. v.items ≡ written_dirs ws.now) }
{
    let mut found = Vec::new(alloc);
    for w in ws {
        if let Some(dir) = dir_of(&w.key) {
            found.push(dir)?;
        }
    }
    Ok(found)
}

fn is_bare(known: &KnownInodes, written: &BTreeSet<Ino>, dir: Ino) -> bool
    ensures { result ≡ is_bare known.now (is_among written.now.keys) dir }
{
    known.dentries_in(dir) == 0 && !has(written, dir)
}

fn leaves_well(
    known: &KnownInodes,
    written: &BTreeSet<Ino>,
    led: &BTreeSet<Ino>,
    left: &[Ino],
) -> bool
    ensures { result ≡ all_pass (leaves_well known.now (is_among written.now.keys) (is_among led.now.keys)) left.now }
{
    for dir in left {
        if !has(led, *dir) && !is_bare(known, written, *dir) {
            return false;
        }
    }
    true
}

fn full_key(known: &KnownInodes, ino: Ino) -> Option<&CellKey>
    ensures { option_copied result ≡ place_key (known_at known.now ino).full }
{
    match known.get(ino) {
        Some(known) => {
            match &known.full {
                Some(place) => Some(&place.key),
                None => None,
            }
        }
        None => None,
    }
}

// Whether a full dentry names the directory.
fn names(value: &CellValue, dir: Ino) -> bool
    ensures { result ≡ true → option_and_then subdir (dentry_of value.now) ≡ Some dir }
{
    match subdir_in(value) {
        Some(below) => below == dir,
        None => false,
    }
}

// The directory that has the full dentry of this one, where that is early and not written.
fn above(known: &KnownInodes, layers: &Layers, keys: &Keys<'_>, dir: Ino) -> Option<Ino>
    ensures { IfSome result (HasPlaceKept (table_of (early_cells layers.now)) (λ q. keys_have keys.now (dentry_key q)) dir) }
{
    let key = full_key(known, dir)?;
    if keys.have(key) {
        return None;
    }
    let value = layers.early(key)?;
    let parent = dir_of(key)?;
    if names(value, dir) {
        Some(parent)
    } else {
        None
    }
}

// Whether full dentries that are not written lead from the root to the directory. No way is longer than inodes are known.
fn keeps_way(known: &KnownInodes, layers: &Layers, keys: &Keys<'_>, dir: Ino) -> bool
    ensures { result ≡ true → HasKeptWay (table_of (early_cells layers.now)) (λ q. keys_have keys.now (dentry_key q)) dir }
{
    let mut at = dir;
    'up: for _ in 0..known.len() {
        if at == ROOT {
            return true;
        }
        match above(known, layers, keys, at) {
            Some(parent) => at = parent,
            None => return false,
        }
    }
    false
}

fn lead_well(
    known: &KnownInodes,
    layers: &Layers,
    keys: &Keys<'_>,
    written: &BTreeSet<Ino>,
    left: &BTreeSet<Ino>,
    w: &CellWrite,
) -> bool
    ensures { result ≡ true → LeadsWell known.now (table_of (early_cells layers.now)) (λ q. keys_have keys.now (dentry_key q)) (is_among written.now.keys) (is_among left.now.keys) w.now }
{
    match (dir_of(&w.key), dir_named(known, &w.key, &w.value)) {
        (Some(dir), Some(below)) => {
            if has(left, below) {
                keeps_way(known, layers, keys, dir)
            } else {
                is_bare(known, written, below)
            }
        }
        _ => true,
    }
}

fn leads_well(
    known: &KnownInodes,
    layers: &Layers,
    keys: &Keys<'_>,
    written: &BTreeSet<Ino>,
    left: &BTreeSet<Ino>,
    ws: &[CellWrite],
) -> bool
    ensures { result ≡ true → AllByRecursion (LeadsWell known.now (table_of (early_cells layers.now)) (λ q. keys_have keys.now (dentry_key q)) (is_among written.now.keys) (is_among left.now.keys)) ws.now }
{
    for w in ws {
        if !lead_well(known, layers, keys, written, left, w) {
            return false;
        }
    }
    true
}

// Whether no key is written twice, and the directories that come and go, or move, are those of a gentle group.
fn turns_well(
    alloc: Global,
    known: &KnownInodes,
    layers: &Layers,
    ws: &[CellWrite],
    turn: &Turn,
) -> Result<bool, AllocError>
    requires left { turn.now.left.items ≡ left_dirs (is_dir_at known.now) (early_value layers.now) ws.now }
    requires led { turn.now.led.items ≡ led_dirs (is_dir_at known.now) ws.now }
    ensures { IfOk result (λ b. b ≡ true → IsGentleTurn known.now layers.now ws.now turn.now.left.items turn.now.led.items) }
{
    let Some(keys) = Keys::of_writes(alloc, ws)? else {
        return Ok(false);
    };
    if turn.left.is_empty() && turn.led.is_empty() {
        return Ok(true);
    }
    let dirs = written_dirs(alloc, ws)?;
    let written = set_of(alloc, &dirs)?;
    let left = set_of(alloc, &turn.left)?;
    let led = set_of(alloc, &turn.led)?;
    if !leaves_well(known, &written, &led, &turn.left) {
        return Ok(false);
    }
    Ok(leads_well(known, layers, &keys, &written, &left, ws))
}

/// What a group turns, where it is gentle. Time grows with the writes, and with how deep the directories lie that move.
pub fn gentle_turn(
    alloc: Global,
    known: &KnownInodes,
    layers: &Layers,
    ws: &[CellWrite],
    changes: &[ChangeView<'_>],
) -> Result<Option<Turn>, AllocError>
    requires { map change_of changes.now ≡ changes_over (where_said (early_value layers.now)) ws.now }
    ensures { IfOk result (λ o. IfSome o (λ turn. IsGentleTurn known.now layers.now ws.now turn.left.items turn.led.items)) }
{
    let turn = Turn {
        left: left_dirs(alloc, known, changes)?,
        led: led_dirs(alloc, known, ws)?,
    };
    if turns_well(alloc, known, layers, ws, &turn)? {
        Ok(Some(turn))
    } else {
        Ok(None)
    }
}
