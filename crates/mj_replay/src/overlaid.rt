//! The cells of a formatted store with the writes of a journal's events over them.

ghost use Rattle.std.specs.Prelude.{◌≡◌, ◌&&◌, ℕ, unwrap_or, IfOk, OnOk};
ghost use Rattle.mj_cells.specs.Table.{table_of, overlay, number_of};
ghost use Rattle.mj_event.specs.Event.{IsEvent};
ghost use Rattle.mj_event.specs.Writes.{writes_of};
ghost use Rattle.mj_recovery.specs.Journal.{journal_writes};
ghost use Rattle.mj_delta.specs.Fresh.{fresh_table};
ghost use Rattle.mj_replay.specs.Lumps.{none_strange, lumps_known};
ghost use Rattle.mj_replay.specs.Pieces.{InGrammar};

use crate::lumps::LumpDirs;
use mj_base::{Ino, RankNo};
use mj_cache::new_cells;
use mj_cells::{CellKey, CellValue};
use mj_event::{Event, writes};
use mj_recovery::LiveEvent;
use mj_tables::SafeCells;
use std::alloc::{AllocError, Global};

/// Cells, and what is kept of the directories of the lumps that wrote to them.
#[derive(Drop)]
pub struct Overlaid {
    pub cells: SafeCells,
    pub lumps: LumpDirs,
}

fn number_in(value: &CellValue) -> u64
    ensures { result ≡ unwrap_or (number_of value.now) 0 }
{
    match value {
        CellValue::Number(n) => *n,
        _ => 0,
    }
}

impl Overlaid {
    // Writes the cells of an event.
    fn put_event(&mut self, alloc: Global, rank: RankNo, event: &Event) -> Result<(), AllocError>
        requires { IsEvent event.now }
        ensures cells { OnOk result (table_of self.new.cells ≡ overlay (table_of self.old.cells) (writes_of event.now)) }
        ensures lumps { OnOk result ((next : ℕ) → none_strange next self.new.lumps ≡ none_strange next self.old.lumps && lumps_known rank next (writes_of event.now)) }
    {
        let ws = writes(alloc, event)?;
        self.lumps.add_writes(rank, &ws);
        self.cells.put_all(ws)?;
        Ok(())
    }

    // Writes the cells of an event, and gives the event up.
    fn take_event(&mut self, alloc: Global, rank: RankNo, e: LiveEvent) -> Result<(), AllocError>
        requires { IsEvent e.event }
        ensures cells { OnOk result (table_of self.new.cells ≡ overlay (table_of self.old.cells) (writes_of e.event)) }
        ensures lumps { OnOk result ((next : ℕ) → none_strange next self.new.lumps ≡ none_strange next self.old.lumps && lumps_known rank next (writes_of e.event)) }
    {
        self.put_event(alloc, rank, &e.event)
    }

    /// The next inode, 0 where there is none.
    pub fn next_ino(&self) -> Ino
        ensures { result ≡ unwrap_or (table_of self.now.cells).next 0 }
    {
        match self.cells.get(&CellKey::NextIno) {
            Some(value) => Ino(number_in(value)),
            None => Ino(0),
        }
    }
}

/// The cells of a formatted store with what the events write over them. Each event is given up once it is written.
pub fn lay_events(
    alloc: Global,
    rank: RankNo,
    events: Vec<LiveEvent>,
) -> Result<Overlaid, AllocError>
    requires { InGrammar events.items }
    ensures cells { IfOk result (λ x. table_of x.cells ≡ overlay (fresh_table rank) (journal_writes events.items)) }
    ensures lumps { IfOk result (λ x. (next : ℕ) → none_strange next x.lumps ≡ lumps_known rank next (journal_writes events.items)) }
{
    let formatted = new_cells(alloc, rank)?;
    let mut cells = SafeCells::of_table(alloc, formatted)?;
    cells.reserve(events.len())?;
    let mut found = Overlaid {
        cells,
        lumps: LumpDirs::new(),
    };
    for e in events {
        found.take_event(alloc, rank, e)?;
    }
    Ok(found)
}
