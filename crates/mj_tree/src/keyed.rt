//! Lists that ascend by keys of their items.
ghost use Rattle.std.specs.Prelude.{◌≡◌, ◌≤◌, ◌<◌, OnOk, OnErr, MatchResult, MatchOption, length, not, filter, ◌==◌, ◌&&◌};
ghost use Rattle.std.specs.List.{insert};
ghost use Rattle.mj_maps.specs.Orders.{nat_cmp, place_cmp, pair_cmp};
ghost use Rattle.mj_tree.specs.Placing.{IsOver, IsBefore, IsTie, replaced, set};
ghost use Rattle.std.specs.declared.cmp.Ordering.{Ordering};
ghost use Rattle.mj_base.specs.InOrder.{placed, same_bytes};

use crate::plain::{PlainLink, PlainOpen};
use crate::session::{KeptReply, PlainSession};
use mj_base::{ClientId, Ino, InodeRecord, Items, Name};
use std::alloc::{AllocError, Global};
use std::cmp::Ordering;
use std::mem;

/// An item that stands in a list by a key of its own.
pub trait Keyed {
    ghost order: { Self → Self → Ordering };

    /// Compares the keys.
    fn compare(&self, other: &Self) -> Ordering
        ensures { result ≡ order self.now other.now };
}

// Where the item stands by its key: over the item that has the key, or before the first with a greater one.
fn place_of<T: Keyed>(items: &[T], item: &T) -> Result<usize, usize>
    ensures { MatchResult result (IsOver T.order item.now items.now) (IsBefore T.order item.now items.now) }
{
    let mut at = 0;
    while at < items.len() {
        match item.compare(&items[at]) {
            Ordering::Less => return Err(at),
            Ordering::Equal => return Ok(at),
            Ordering::Greater => at += 1,
        }
    }
    Err(at)
}

/// Puts the item in its place, over the one that has its key. An error leaves the list as it was.
pub fn put<T: Keyed + Drop>(alloc: Global, items: &mut Items<T>, item: T) -> Result<(), AllocError>
    ensures ok { OnOk result (items.new ≡ placed T.order item items.old) }
    ensures err { OnErr result (items.new ≡ items.old) }
{
    match place_of(items.as_slice(), &item) {
        Ok(at) => {
            set_at(alloc, items, at, item);
            Ok(())
        }
        Err(at) => insert_at(alloc, items, at, item),
    }
}

/// Puts the item over the first one that has its key, if there is one.
pub fn replace<T: Keyed + Drop>(alloc: Global, items: &mut Items<T>, item: T)
    ensures { items.new ≡ replaced T.order item items.old }
{
    if let Some(at) = tie_of(items.as_slice(), &item) {
        set_at(alloc, items, at, item);
    }
}

// Where the first item with this key stands.
fn tie_of<T: Keyed>(items: &[T], item: &T) -> Option<usize>
    ensures { MatchOption result (replaced T.order item.now items.now ≡ items.now) (IsTie T.order item.now items.now) }
{
    for i in 0..items.len() {
        if let Ordering::Equal = item.compare(&items[i]) {
            return Some(i);
        }
    }
    None
}

// Takes the list out, with an empty one in its place.
fn vec_of<T: Drop>(alloc: Global, items: &mut Items<T>) -> Vec<T>
    ensures { result.items ≡ items.old }
{
    mem::replace(items, Items::from_vec(Vec::new(alloc))).into_vec()
}

fn set_at<T: Drop>(alloc: Global, items: &mut Items<T>, at: usize, item: T)
    requires { at < length items.old }
    ensures { items.new ≡ set items.old at item }
{
    let mut all = vec_of(alloc, items);
    all[at] = item;
    *items = Items::from_vec(all);
}

fn insert_at<T: Drop>(
    alloc: Global,
    items: &mut Items<T>,
    at: usize,
    item: T,
) -> Result<(), AllocError>
    requires { at ≤ length items.old }
    ensures ok { OnOk result (items.new ≡ insert items.old at item) }
    ensures err { OnErr result (items.new ≡ items.old) }
{
    let mut all = vec_of(alloc, items);
    let inserted = all.insert(at, item);
    *items = Items::from_vec(all);
    inserted?;
    Ok(())
}

impl Keyed for InodeRecord {
    ghost order = { λ a b. nat_cmp a.ino b.ino };

    fn compare(&self, other: &Self) -> Ordering {
        self.ino.cmp(&other.ino)
    }
}

impl Keyed for PlainLink {
    ghost order = { λ a b. place_cmp (a.parent, a.name) (b.parent, b.name) };

    fn compare(&self, other: &Self) -> Ordering {
        self.parent
            .cmp(&other.parent)
            .then(self.name.cmp(&other.name))
    }
}

impl Keyed for PlainOpen {
    ghost order = { λ a b. pair_cmp (a.client, a.ino) (b.client, b.ino) };

    fn compare(&self, other: &Self) -> Ordering {
        self.client
            .cmp(&other.client)
            .then(self.ino.cmp(&other.ino))
    }
}

impl Keyed for PlainSession {
    ghost order = { λ a b. nat_cmp a.client b.client };

    fn compare(&self, other: &Self) -> Ordering {
        self.client.cmp(&other.client)
    }
}

impl Keyed for KeptReply {
    ghost order = { λ a b. nat_cmp a.tid b.tid };

    fn compare(&self, other: &Self) -> Ordering {
        self.tid.cmp(&other.tid)
    }
}

/// Takes the record of an inode out.
pub fn drop_record(alloc: Global, records: &mut Items<InodeRecord>, ino: Ino)
    ensures { records.new ≡ filter (λ r. not (r.ino == ino)) records.old }
{
    let mut all = vec_of(alloc, records);
    all.retain(|r| r.ino != ino);
    *records = Items::from_vec(all);
}

/// Takes the link at a place out.
pub fn drop_link(alloc: Global, links: &mut Items<PlainLink>, place: &(Ino, Name))
    ensures { links.new ≡ filter (λ l. not ((l.parent == place.now.0) && same_bytes l.name place.now.1)) links.old }
{
    let mut all = vec_of(alloc, links);
    all.retain(|l| !(l.parent == place.0 && l.name == place.1));
    *links = Items::from_vec(all);
}

/// Takes a client's open of a file out.
pub fn drop_open(alloc: Global, opens: &mut Items<PlainOpen>, client: ClientId, ino: Ino)
    ensures { opens.new ≡ filter (λ o. not ((o.client == client) && (o.ino == ino))) opens.old }
{
    let mut all = vec_of(alloc, opens);
    all.retain(|o| !(o.client == client && o.ino == ino));
    *opens = Items::from_vec(all);
}

/// Takes a client's session out.
pub fn drop_session(alloc: Global, sessions: &mut Items<PlainSession>, client: ClientId)
    ensures { sessions.new ≡ filter (λ c. not (c.client == client)) sessions.old }
{
    let mut all = vec_of(alloc, sessions);
    all.retain(|c| c.client != client);
    *sessions = Items::from_vec(all);
}
