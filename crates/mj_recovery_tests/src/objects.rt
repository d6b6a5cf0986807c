//! Whether a list of objects is one of an image: no name stands twice, and pairs ascend by their keys.

ghost use Rattle.std.specs.Prelude.{◌≡◌, ◌↔◌, IsTrue};
ghost use Rattle.std.specs.List.{list_any, list_all};
ghost use Rattle.std.specs.FinMap.Entries.{is_sorted, below_all};
ghost use Rattle.mj_maps.specs.Orders.{bytes_cmp};
ghost use Rattle.mj_store.specs.Object.{same_name};
ghost use Rattle.mj_store.specs.declared.held.HeldObject.{HeldObject};
ghost use Rattle.mj_recovery.specs.Objects.{AreHeld, are_apart, pair_entries};

use crate::stream::is_same;
use mj_base::ObjectName;
use mj_store::{HeldObject, Pair};
use std::cmp::Ordering;

fn is_there(objects: &[HeldObject], name: &ObjectName) -> bool
    ensures { result ≡ list_any (λ (g : HeldObject). same_name name.now g.name) objects.now }
{
    for object in objects {
        if is_same(name, &object.name) {
            return true;
        }
    }
    false
}

fn are_apart(objects: &[HeldObject]) -> bool
    ensures { result ≡ are_apart objects.now }
{
    for i in 0..objects.len() {
        if is_there(&objects[i + 1..], &objects[i].name) {
            return false;
        }
    }
    true
}

fn is_below(key: &[u8], pairs: &[Pair]) -> bool
    ensures { result ≡ below_all bytes_cmp key.now (pair_entries pairs.now) }
{
    for pair in pairs {
        match key.cmp(pair.key.as_slice()) {
            Ordering::Less => {}
            _ => return false,
        }
    }
    true
}

fn do_pairs_rise(pairs: &[Pair]) -> bool
    ensures { result ≡ is_sorted bytes_cmp (pair_entries pairs.now) }
{
    for i in 0..pairs.len() {
        if !is_below(pairs[i].key.as_slice(), &pairs[i + 1..]) {
            return false;
        }
    }
    true
}

fn do_all_rise(objects: &[HeldObject]) -> bool
    ensures { result ≡ list_all (λ (h : HeldObject). is_sorted bytes_cmp (pair_entries h.pairs)) objects.now }
{
    for object in objects {
        if !do_pairs_rise(object.pairs.as_slice()) {
            return false;
        }
    }
    true
}

/// Whether the objects may be read as an image: no name stands twice, and each object's pairs ascend by their keys.
pub fn are_held(objects: &[HeldObject]) -> bool
    ensures { IsTrue result ↔ AreHeld objects.now }
{
    are_apart(objects) && do_all_rise(objects)
}
