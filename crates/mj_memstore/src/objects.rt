// The objects of the store by name.
ghost use Rattle.std.specs.Prelude.{not, ◌≡◌, ◌⊎◌, ℕ, ◌++◌, ◌∷◌, [], Option, Some, None, IsSome, IfSome, IfNone, IfErr, IfOk, OnOk, OnErr, map, option_copied, slice_get};
ghost use Rattle.std.specs.BTreeMap.{IsOrdered, insert_entry};
ghost use Rattle.mj_base.specs.ObjectName.{object_order};
ghost use Rattle.mj_memstore.specs.Holding.{AreInOrder, HasKeysInOrder, entries_holding, resting};
ghost use Rattle.mj_store.specs.Object.{HasShortKeys};
ghost use Rattle.mj_memstore.specs.HeldView.{HeldView};
ghost use Rattle.mj_memstore.specs.Memory.{found, held_objects, Changes, Places, TriesFirst, HasNoFirst, settled};
ghost use Rattle.mj_store.specs.declared.answer.Ack.{Ack};

use crate::held::{Held, name_of};
use mj_base::OpNo;
use mj_store::{Ack, HeldObject, ObjectAct, ObjectName};
use std::alloc::{AllocError, Global};
use std::collections::BTreeMap;

pub type Objects = BTreeMap<ObjectName, Held>;

// Makes a place for an object of this name, where there is none.
pub fn make_place(alloc: Global, objects: &mut Objects, name: ObjectName) -> Result<(), AllocError>
    ensures ok { OnOk result (Places name objects.old.entries objects.new.entries) }
    ensures err { OnErr result (objects.new.entries ≡ objects.old.entries) }
{
    if objects.contains_key(&name) {
        return Ok(());
    }
    objects.insert(name, Held::absent(alloc, name))?;
    Ok(())
}

// Puts an operation last among its object's, or hands its act back.
pub fn add_op(
    alloc: Global,
    objects: &mut Objects,
    name: &ObjectName,
    op: OpNo,
    act: ObjectAct,
) -> Result<(), ObjectAct>
    requires keys { HasShortKeys act }
    requires there { IsSome (found name.now objects.old.entries) }
    ensures ok { OnOk result ((v : HeldView) × Changes name.now v (record v { waiting = v.waiting ++ record { op = op; act = act } ∷ [] }) objects.old.entries objects.new.entries) }
    ensures err { OnErr result (objects.new.entries ≡ objects.old.entries) }
    ensures returned { IfErr result (λ back. back ≡ act) }
{
    match objects.get_mut(name) {
        Some(held) => held.add(alloc, op, act),
        None => unreachable!(),
    }
}

// Tries an object's first operation, or fails it. Answers none where nothing may be tried.
pub fn try_first(objects: &mut Objects, name: &ObjectName, fails: bool) -> Option<Ack>
    ensures some { IfSome result (λ ack. (v : HeldView) × (w : HeldView) × TriesFirst v w ack × Changes name.now v w objects.old.entries objects.new.entries) }
    ensures answer { IfSome result (λ ack. ack.done ≡ not fails) }
    ensures none { IfNone result ((found name.now objects.old.entries ≡ None) ⊎ ((v : HeldView) × (found name.now objects.old.entries ≡ Some v) × HasNoFirst v)) }
    ensures same { IfNone result (objects.new.entries ≡ objects.old.entries) }
{
    match objects.get_mut(name) {
        Some(held) => held.try_first(fails),
        None => None,
    }
}

// Drops what is pending everywhere.
pub fn settle_all(objects: &mut Objects)
    ensures { objects.new.entries ≡ settled objects.old.entries }
{
    objects.retain(|_, held| {
        held.settle();
        true
    });
}

// These objects under their names, with nothing that waits.
pub fn hold_all(alloc: Global, objects: Vec<HeldObject>) -> Result<Objects, AllocError>
    requires { AreInOrder objects.items }
    ensures { IfOk result (λ held. held.entries ≡ entries_holding objects.items) }
{
    let mut held = BTreeMap::new(alloc);
    for object in objects {
        let name = name_of(&object);
        hold(alloc, &mut held, name, object)?;
    }
    Ok(held)
}

// One more object under its name.
fn hold(
    alloc: Global,
    objects: &mut Objects,
    name: ObjectName,
    object: HeldObject,
) -> Result<(), AllocError>
    requires name { name ≡ object.name }
    requires keys { HasKeysInOrder object }
    ensures { OnOk result (objects.new.entries ≡ insert_entry object_order objects.old.entries object.name (resting object)) }
{
    objects.insert(name, Held::resting(alloc, object))?;
    Ok(())
}

// The object at this place among those that are there.
pub fn nth_object(objects: &Objects, n: usize) -> Option<&HeldObject>
    ensures nth { option_copied result ≡ slice_get (held_objects objects.entry.now.entries) n }
    ensures ordered { IsOrdered object_order objects.entry.now }
{
    let mut left = n;
    for held in objects.values() {
        if let Some(object) = held.object() {
            if left == 0 {
                return Some(object);
            }
            left -= 1;
        }
    }
    None
}

// All objects that are there.
pub fn objects_there(alloc: Global, objects: &Objects) -> Result<Vec<&HeldObject>, AllocError>
    ensures all { IfOk result (λ v. map (λ h. h.now) v.items ≡ held_objects objects.entry.now.entries) }
    ensures ordered { IsOrdered object_order objects.entry.now }
{
    let mut all = Vec::new(alloc);
    for held in objects.values() {
        if let Some(object) = held.object() {
            all.push(object)?;
        }
    }
    Ok(all)
}
