// What an operation makes of its object, in memory that is there.
ghost use Rattle.std.specs.Prelude.{◌≡◌, ◌+◌, ◌≤◌, [], length, take, T, unwrap_or, vec_len, vec_capacity};
ghost use Rattle.std.specs.FinMap.Entries.{is_sorted};
ghost use Rattle.mj_maps.specs.Orders.{bytes_cmp};
ghost use Rattle.mj_store.specs.Object.{applied, written, head_after, blank, all_set, dropped, HasShortKeys};
ghost use Rattle.mj_memstore.specs.Pairs.{entries_of};
ghost use Rattle.mj_memstore.specs.Content.{map_of, content_of, held_content, pair_count, set_count, HasRoom, IsSound, IsHeldAs};
ghost use Rattle.mj_memstore.specs.Room.{IsEmpty};

use crate::bytes::write;
use crate::pairs::{drop_key, place};
use crate::room::Room;
use mj_base::Items;
use mj_store::{HeadAct, HeldObject, ObjectAct, ObjectName, Pair};
use std::alloc::Global;

// The same list with room up to `end`: its own memory where that is enough, else that of `room`.
fn with_room<T: Drop>(mut items: Vec<T>, mut room: Vec<T>, end: usize) -> Vec<T>
    requires empty { room.items ≡ [] }
    requires room { end ≤ vec_capacity room }
    ensures items { result.items ≡ items.items }
    ensures capacity { end ≤ vec_capacity result }
{
    if end <= items.capacity() {
        return items;
    }
    room.append(&mut items).unwrap();
    room
}

// Sets the pairs, one after another. There is room for all of them.
fn set_all(pairs: &mut Vec<Pair>, set: Vec<Pair>)
    requires sorted { T (is_sorted bytes_cmp (entries_of pairs.old.items)) }
    requires room { vec_len pairs.old + length set.items ≤ vec_capacity pairs.old }
    ensures pairs { map_of pairs.new.items ≡ all_set set.items (map_of pairs.old.items) }
    ensures sorted { T (is_sorted bytes_cmp (entries_of pairs.new.items)) }
    ensures len { vec_len pairs.new ≤ vec_len pairs.old + length set.items }
{
    for pair in set {
        place(pairs, pair);
    }
}

// Drops the keys.
fn drop_all(pairs: &mut Vec<Pair>, keys: &[Items<u8>])
    requires { T (is_sorted bytes_cmp (entries_of pairs.old.items)) }
    ensures pairs { map_of pairs.new.items ≡ dropped keys.now (map_of pairs.old.items) }
    ensures sorted { T (is_sorted bytes_cmp (entries_of pairs.new.items)) }
    ensures len { vec_len pairs.new ≤ vec_len pairs.old }
    ensures capacity { vec_capacity pairs.old ≤ vec_capacity pairs.new }
{
    for key in keys {
        drop_key(pairs, key.as_slice());
    }
}

// The object, or one with nothing in it.
fn or_blank(alloc: Global, name: ObjectName, object: Option<HeldObject>) -> HeldObject
    requires { IsSound name object }
    ensures content { content_of result ≡ unwrap_or (held_content object) blank }
    ensures sound { IsHeldAs name result }
    ensures count { length result.pairs ≡ pair_count object }
{
    match object {
        Some(object) => object,
        None => HeldObject {
            name,
            bytes: Items::from_vec(Vec::new(alloc)),
            head: None,
            pairs: Items::from_vec(Vec::new(alloc)),
        },
    }
}

// What an act makes of an object, in its own memory and that of `room`.
pub fn apply(
    name: ObjectName,
    object: Option<HeldObject>,
    act: ObjectAct,
    room: Room,
) -> Option<HeldObject>
    requires empty { IsEmpty room }
    requires keys { HasShortKeys act }
    requires room { HasRoom act (pair_count object) (vec_capacity room.bytes) (vec_capacity room.pairs) }
    requires sound { IsSound name object }
    ensures content { held_content result ≡ applied act (held_content object) }
    ensures sound { IsSound name result }
    ensures count { pair_count result ≤ pair_count object + set_count act }
{
    let alloc = *room.bytes.allocator();
    match act {
        ObjectAct::Write { at, bytes } => {
            let object = or_blank(alloc, name, object);
            Some(written_object(object, at as usize, bytes.as_slice(), room.bytes))
        }
        ObjectAct::Truncate { len } => Some(cut_object(object?, len as usize)),
        ObjectAct::Remove => None,
        ObjectAct::Keys { set, drop, head } => {
            let object = or_blank(alloc, name, object);
            Some(keyed_object(object, set.into_vec(), drop.as_slice(), head, room.pairs))
        }
    }
}

// With these bytes at this offset.
fn written_object(object: HeldObject, at: usize, new: &[u8], room: Vec<u8>) -> HeldObject
    requires empty { room.items ≡ [] }
    requires room { at + length new.now ≤ vec_capacity room }
    ensures { result ≡ record object { bytes = written at new.now object.bytes } }
{
    let mut bytes = with_room(object.bytes.into_vec(), room, at + new.len());
    write(&mut bytes, at, new);
    HeldObject {
        name: object.name,
        bytes: Items::from_vec(bytes),
        head: object.head,
        pairs: object.pairs,
    }
}

// With no more than `len` bytes.
fn cut_object(object: HeldObject, len: usize) -> HeldObject
    ensures { result ≡ record object { bytes = take len object.bytes } }
{
    let mut bytes = object.bytes.into_vec();
    bytes.truncate(len);
    HeldObject {
        name: object.name,
        bytes: Items::from_vec(bytes),
        head: object.head,
        pairs: object.pairs,
    }
}

// With keys dropped, pairs set and a head put.
fn keyed_object(
    object: HeldObject,
    set: Vec<Pair>,
    drops: &[Items<u8>],
    head: HeadAct,
    room: Vec<Pair>,
) -> HeldObject
    requires empty { room.items ≡ [] }
    requires room { length object.pairs + length set.items ≤ vec_capacity room }
    requires sorted { T (is_sorted bytes_cmp (entries_of object.pairs)) }
    ensures content { content_of result ≡ record { bytes = object.bytes; head = head_after head object.head; pairs = all_set set.items (dropped drops.now (map_of object.pairs)) } }
    ensures sorted { T (is_sorted bytes_cmp (entries_of result.pairs)) }
    ensures name { result.name ≡ object.name }
    ensures count { length result.pairs ≤ length object.pairs + length set.items }
{
    let pairs = object.pairs.into_vec();
    let most = pairs.len() + set.len();
    let mut pairs = with_room(pairs, room, most);
    drop_all(&mut pairs, drops);
    set_all(&mut pairs, set);
    HeldObject {
        name: object.name,
        bytes: object.bytes,
        head: match head {
            HeadAct::Leave => object.head,
            HeadAct::Put(head) => Some(head),
        },
        pairs: Items::from_vec(pairs),
    }
}
