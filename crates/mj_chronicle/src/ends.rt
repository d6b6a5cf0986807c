//! Where the events of requests end, by client and number.

ghost use Rattle.std.specs.Prelude.{◌≡◌, ℕ, ◌&&◌, ◌==◌, ◌∷◌, ◌++◌, [], List, IsSome, OnOk, OnErr, if◌then◌else◌};
ghost use Rattle.std.specs.BTreeMap.{get};
ghost use Rattle.mj_maps.specs.Orders.{pair_cmp};
ghost use Rattle.mj_chronicle.specs.Ends.{own_end, last_end, IsIndexOf};
ghost use Rattle.mj_machine.specs.declared.kept.ChronicleEntry.{ChronicleEntry};

use mj_base::{ClientId, Tid};
use mj_machine::ChronicleEntry;
use std::alloc::AllocError;
use std::collections::BTreeMap;

/// The last end of an event by client and number.
pub type Ends = BTreeMap<(ClientId, Tid), u64>;

/// The end of the last of these entries that is of this client and number and has one.
pub fn last_end(entries: &[ChronicleEntry], client: ClientId, tid: Tid) -> Option<u64>
    ensures { result ≡ last_end client tid entries.now }
{
    let mut last = None;
    for entry in entries {
        last = own_end(entry, client, tid).or(last);
    }
    last
}

fn own_end(entry: &ChronicleEntry, client: ClientId, tid: Tid) -> Option<u64>
    ensures { result ≡ own_end client tid entry.now }
{
    if entry.request.client == client && entry.request.tid == tid {
        entry.ends_at
    } else {
        None
    }
}

/// Takes up the end of an entry that goes behind the others, where it has one.
pub fn take_up(ends: &mut Ends, entry: &ChronicleEntry) -> Result<(), AllocError>
    ensures ok { OnOk result ((es : List ChronicleEntry) → IsIndexOf es ends.old → IsIndexOf (es ++ entry.now ∷ []) ends.new) }
    ensures err { OnErr result (ends.new.entries ≡ ends.old.entries) }
{
    match entry.ends_at {
        Some(end) => {
            ends.insert(pair_of(entry), end)?;
            Ok(())
        }
        None => Ok(()),
    }
}

/// Takes the end of the entry behind these out again. It takes no memory.
pub fn take_back(ends: &mut Ends, entries: &[ChronicleEntry], entry: &ChronicleEntry)
    requires { IsIndexOf (entries.now ++ entry.now ∷ []) ends.old }
    ensures { IsIndexOf entries.now ends.new }
{
    if entry.ends_at.is_some() {
        let (client, tid) = pair_of(entry);
        replace(ends, (client, tid), last_end(entries, client, tid));
    }
}

fn pair_of(entry: &ChronicleEntry) -> (ClientId, Tid)
    ensures { result ≡ (entry.now.request.client, entry.now.request.tid) }
{
    (entry.request.client, entry.request.tid)
}

// Puts another end in the place of one that is there, or takes it out. It takes no memory.
fn replace(ends: &mut Ends, pair: (ClientId, Tid), end: Option<u64>)
    requires { IsSome (get pair_cmp ends.old pair) }
    ensures { (q : ℕ × ℕ) → get pair_cmp ends.new q ≡ (if (pair.0 == q.0) && (pair.1 == q.1) then end else get pair_cmp ends.old q) }
{
    match end {
        Some(end) => {
            if let Some(place) = ends.get_mut(&pair) {
                *place = end;
            }
        }
        None => {
            let _ = ends.remove(&pair);
        }
    }
}
