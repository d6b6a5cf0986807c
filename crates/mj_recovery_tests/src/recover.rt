//! What a list of objects recovers to.

ghost use Rattle.std.specs.Prelude.{◌≡◌, [], ◌∷◌, ◌++◌, IfOk, OnOk};
ghost use Rattle.mj_base.specs.ObjectName.{stray_ino};
ghost use Rattle.mj_recovery.specs.Journal.{journal_writes};
ghost use Rattle.mj_recovery.specs.Objects.{AreHeld, objects_of};
ghost use Rattle.mj_recovery.specs.Recovered.{merged_table, merged_damage, merged_with, recovered};
ghost use Rattle.mj_recovery.specs.Damage.{first_some, lump_dirs};
ghost use Rattle.mj_replay.specs.Pieces.{InGrammar};
ghost use Rattle.mj_recovery_tests.specs.Gives.{Gives};
ghost use Rattle.mj_recovery_tests.specs.View.{table_in, recovery_of};

use crate::bad::{bad_dirfrag, bad_table};
use crate::journal::read_journal;
use crate::put::{put_events, put_objects};
use mj_base::{Damage, Ino, RankNo};
use mj_cache::plain_tree;
use mj_cells::{CellKey, CellTable, CellWrite};
use mj_event::writes;
use mj_judge::{reachable, tree_damage};
use mj_recovery::{LiveEvent, LiveJournal, stray_ino};
use mj_replay::JournalRefusal;
use mj_store::HeldObject;
use mj_tables::{Layers, SafeCells};
use mj_tree::PlainTree;
use std::alloc::{AllocError, Global};
use std::collections::BTreeSet;

/// The live journal, the merged cells, and the tree of their table.
#[derive(Drop)]
pub struct Recovery {
    pub journal: LiveJournal,
    pub layers: Layers,
    pub tree: PlainTree,
}

// The merged cells: what the objects store, and over it what the events write.
fn merged_cells(
    alloc: Global,
    objects: &[HeldObject],
    rank: RankNo,
    events: &[LiveEvent],
) -> Result<Layers, AllocError>
    requires held { AreHeld objects.now }
    requires grammar { InGrammar events.now }
    ensures { IfOk result (λ l. table_in l ≡ merged_table rank (objects_of objects.now) events.now) }
{
    let mut cells = SafeCells::of_table(alloc, CellTable::new(alloc))?;
    put_objects(alloc, &mut cells, rank, objects)?;
    put_events(alloc, &mut cells, events)?;
    let layers = Layers::of_cells(alloc, cells)?;
    Ok(layers)
}

// A journal with the merged cells and their tree. Nothing of the table is judged.
fn merge(
    alloc: Global,
    objects: &[HeldObject],
    rank: RankNo,
    journal: LiveJournal,
) -> Result<Recovery, AllocError>
    requires held { AreHeld objects.now }
    requires grammar { InGrammar journal.events }
    ensures { IfOk result (λ r. recovery_of r ≡ merged_with rank (objects_of objects.now) journal) }
{
    let layers = merged_cells(alloc, objects, rank, journal.events.as_slice())?;
    let tree = plain_tree(alloc, rank, &layers)?;
    Ok(Recovery {
        journal,
        layers,
        tree,
    })
}

fn push_heads(found: &mut Vec<Ino>, writes: &[CellWrite]) -> Result<(), AllocError>
    ensures { OnOk result (found.new.items ≡ found.old.items ++ lump_dirs writes.now) }
{
    for w in writes {
        if let CellKey::DirHead(dir) = w.key {
            found.push(dir)?;
        }
    }
    Ok(())
}

// The directories of the lumps of these events.
fn live_lumps(alloc: Global, events: &[LiveEvent]) -> Result<Vec<Ino>, AllocError>
    ensures { IfOk result (λ v. v.items ≡ lump_dirs (journal_writes events.now)) }
{
    let mut found = Vec::new(alloc);
    for e in events {
        let writes = writes(alloc, &e.event)?;
        push_heads(&mut found, &writes)?;
    }
    Ok(found)
}

// The directories that hold full dentries: stray, and these.
fn holding(alloc: Global, rank: RankNo, dirs: &BTreeSet<Ino>) -> Result<Vec<Ino>, AllocError>
    ensures { IfOk result (λ v. v.items ≡ stray_ino rank ∷ dirs.now.keys) }
{
    let mut all = Vec::new(alloc);
    all.push(stray_ino(rank))?;
    for dir in dirs.iter() {
        all.push(*dir)?;
    }
    Ok(all)
}

fn first_damage(a: Option<Damage>, b: Option<Damage>, c: Option<Damage>) -> Option<Damage>
    ensures { result ≡ first_some (a ∷ b ∷ c ∷ []) }
{
    match a {
        Some(damage) => Some(damage),
        None => match b {
            Some(damage) => Some(damage),
            None => c,
        },
    }
}

// The first damage: of the tables, of directories' objects, of the merged table.
fn judge(
    alloc: Global,
    objects: &[HeldObject],
    rank: RankNo,
    found: &Recovery,
) -> Result<Option<Damage>, AllocError>
    requires { AreHeld objects.now }
    ensures { IfOk result (λ o. o ≡ merged_damage rank (objects_of objects.now) found.now.journal (table_in found.now.layers)) }
{
    let table = bad_table(alloc, objects, rank)?;
    let cells = found.layers.cells(alloc)?;
    let dirs = reachable(alloc, &cells)?;
    let held = holding(alloc, rank, &dirs)?;
    let dirfrag = bad_dirfrag(alloc, objects, &held)?;
    let lumps = live_lumps(alloc, found.journal.events.as_slice())?;
    let rest = tree_damage(alloc, rank, &found.layers, &dirs, &cells, &lumps)?;
    Ok(first_damage(table, dirfrag, rest))
}

/// What the objects recover to: the live journal, the merged cells and their tree, or the first damage.
pub fn recovered(
    alloc: Global,
    objects: &[HeldObject],
    rank: RankNo,
) -> Result<Recovery, JournalRefusal>
    requires { AreHeld objects.now }
    ensures { Gives recovery_of result (recovered rank (objects_of objects.now)) }
{
    let journal = match read_journal(alloc, objects, rank) {
        Ok(journal) => journal,
        Err(why) => return Err(why),
    };
    let found = merge(alloc, objects, rank, journal)?;
    match judge(alloc, objects, rank, &found)? {
        Some(damage) => Err(JournalRefusal::Damage(damage)),
        None => Ok(found),
    }
}
