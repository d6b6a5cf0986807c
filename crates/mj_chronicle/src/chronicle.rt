//! The chronicle.

ghost use Rattle.std.specs.Prelude.{◌≡◌, ◌-◌, ◌<◌, ◌++◌, ◌∷◌, [], true, length, take, IfOk, OnOk, OnErr};
ghost use Rattle.mj_chronicle.specs.Ends.{last_end};
ghost use Rattle.mj_chronicle.specs.Room.{has_room, IsWithinLimits};

use crate::ends::{Ends, take_back, take_up};
use crate::weight::{less_entry, less_weight};
use mj_base::{ClientId, Tid};
use mj_machine::ChronicleEntry;
use mj_tree::{ClientRequest, Reply};
use std::alloc::{AllocError, Global};
use std::collections::BTreeMap;
use std::marker::Model;

/// The most entries of a chronicle.
pub const MOST_ENTRIES: usize = 1_048_576;

/// The most that the entries of a chronicle weigh together.
pub const MOST_WEIGHT: u64 = 1_073_741_824;

/// The requests that a mount answered, in order.
#[derive(Drop)]
pub struct Chronicle {
    entries: Vec<ChronicleEntry>,
    /// What the entries weigh together.
    weight: u64,
    /// Where the last event of each client's request of a number ends.
    ends: Ends,
}

impl Model for Chronicle {
    ghost use Rattle.std.specs.Prelude.{List};
    ghost use Rattle.mj_machine.specs.declared.kept.ChronicleEntry.{ChronicleEntry};

    ghost Value = { List ChronicleEntry };

    ghost view = { λ a. a.entries.items };

    ghost use Rattle.mj_chronicle.specs.Inside.{IsSound};

    ghost invariant = { IsSound };
}

impl Chronicle {
    pub fn new(alloc: Global) -> Chronicle
        ensures { result ≡ [] }
    {
        Chronicle {
            entries: Vec::new(alloc),
            weight: 0,
            ends: BTreeMap::new(alloc),
        }
    }

    pub fn len(&self) -> u64
        ensures { result ≡ length self.now }
    {
        self.entries.len() as u64
    }

    pub fn entries(&self) -> &[ChronicleEntry]
        ensures { result.now ≡ self.now }
    {
        &self.entries
    }

    /// Every chronicle is within the limits.
    pub fn within_limits(&self)
        ensures { IsWithinLimits self.now }
    {
        let _ = &self.entries;
    }

    /// Whether one more request with this reply fits.
    pub fn has_room(&self, r: &ClientRequest, reply: &Reply) -> bool
        ensures { result ≡ has_room self.now r.entry.now reply.now }
    {
        self.entries.len() < MOST_ENTRIES
            && less_weight(MOST_WEIGHT - self.weight, r, reply).is_some()
    }

    /// Where the last event of a client's request of this number ends.
    pub fn end_of(&self, client: ClientId, tid: Tid) -> Option<u64>
        ensures { result ≡ last_end client tid self.now }
    {
        self.ends.get(&(client, tid)).copied()
    }

    /// Adds an entry behind the others.
    pub fn add(&mut self, _alloc: Global, entry: ChronicleEntry) -> Result<(), AllocError>
        requires room { has_room self.old entry.request entry.reply ≡ true }
        ensures ok { OnOk result (self.new ≡ self.old ++ entry ∷ []) }
        ensures err { OnErr result (self.new ≡ self.old) }
    {
        let left = less_entry(MOST_WEIGHT - self.weight, &entry).unwrap();
        self.entries.reserve(1)?;
        take_up(&mut self.ends, &entry)?;
        self.entries.push(entry).unwrap();
        self.weight = MOST_WEIGHT - left;
        Ok(())
    }

    /// Takes the last entry back. It takes no memory, and looks at all entries where the entry has an end.
    pub fn drop_last(&mut self)
        requires { 0 < length self.old }
        ensures { self.new ≡ take (length self.old - 1) self.old }
    {
        let Some(entry) = self.entries.pop() else {
            return;
        };
        self.weight = less_entry(self.weight, &entry).unwrap();
        take_back(&mut self.ends, &self.entries, &entry);
    }

    /// The same entries again.
    pub fn copy(&self, alloc: Global) -> Result<Chronicle, AllocError>
        ensures { IfOk result (λ same. same ≡ self.now) }
    {
        copy_all(alloc, self.entries.as_slice())
    }
}

fn copy_all(alloc: Global, entries: &[ChronicleEntry]) -> Result<Chronicle, AllocError>
    requires { IsWithinLimits entries.now }
    ensures { IfOk result (λ same. same ≡ entries.now) }
{
    let mut same = Chronicle::new(alloc);
    for entry in entries {
        let copy = copied(alloc, entry)?;
        same.add(alloc, copy)?;
    }
    Ok(same)
}

fn copied(alloc: Global, entry: &ChronicleEntry) -> Result<ChronicleEntry, AllocError>
    ensures { IfOk result (λ same. same ≡ entry.now) }
{
    Ok(ChronicleEntry {
        request: entry.request.copy(alloc)?,
        reply: entry.reply.copy(alloc)?,
        ends_at: entry.ends_at,
    })
}
