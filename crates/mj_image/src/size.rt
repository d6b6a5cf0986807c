// How many bytes an image has. A sum stands still at the greatest number.
ghost use Rattle.std.specs.Prelude.{◌≡◌, ◌-◌, ◌^◌, ◌≤◌, min, map, length, IfOk, OnOk};
ghost use Rattle.std.specs.List.{flat_map, AllByRecursion};
ghost use Rattle.mj_base.specs.Reading.{optional};
ghost use Rattle.mj_base.specs.ObjectName.{object_text, IsObjectName};
ghost use Rattle.mj_store.specs.declared.held.HeldObject.{HeldObject};
ghost use Rattle.mj_image.specs.Image.{long_bytes, pair_bytes, object_bytes, image_bytes, HasName};

use mj_base::{Items, ObjectName};
use mj_store::{HeldObject, Pair};
use std::alloc::{AllocError, Global};

fn pair_len(pair: &Pair) -> usize
    ensures { result ≡ min (length (pair_bytes pair.now)) (2 ^ 64 - 1) }
{
    let len = pair.key.len().saturating_add(pair.value.len());
    len.saturating_add(6)
}

fn pairs_len(pairs: &[Pair]) -> usize
    ensures { result ≡ min (length (flat_map pair_bytes pairs.now)) (2 ^ 64 - 1) }
{
    let mut len: usize = 0;
    for pair in pairs {
        len = len.saturating_add(pair_len(pair));
    }
    len
}

fn head_len(head: &Option<Items<u8>>) -> usize
    ensures { result ≡ min (length (optional long_bytes head.now)) (2 ^ 64 - 1) }
{
    match head {
        Some(head) => head.len().saturating_add(5),
        None => 1,
    }
}

// The text of a name.
pub fn text_of(alloc: Global, name: &ObjectName) -> Result<Vec<u8>, AllocError>
    ensures text { IfOk result (λ text. text.items ≡ object_text name.now) }
    ensures range { IsObjectName name.now }
{
    match name {
        ObjectName::File { ino, index } => {
            let (_ino, _index) = (*ino, *index);
        }
        ObjectName::InoTable(rank) | ObjectName::SessionMap(rank) => {
            let _number = rank.number();
        }
    }
    name.text(alloc)
}

fn object_len(alloc: Global, object: &HeldObject) -> Result<usize, AllocError>
    ensures len { IfOk result (λ len. len ≡ min (length (object_bytes object.now)) (2 ^ 64 - 1)) }
    ensures name { OnOk result (HasName object.now) }
{
    let text = text_of(alloc, &object.name)?;
    let front = text.len().saturating_add(object.bytes.len());
    let back = head_len(&object.head).saturating_add(pairs_len(object.pairs.as_slice()));
    let len = front.saturating_add(back);
    Ok(len.saturating_add(14))
}

pub fn image_len(alloc: Global, objects: &[&HeldObject]) -> Result<usize, AllocError>
    ensures len { IfOk result (λ len. len ≡ min (length (image_bytes (map (λ h. h.now) objects.now))) (2 ^ 64 - 1)) }
    ensures names { OnOk result (AllByRecursion HasName (map (λ h. h.now) objects.now)) }
{
    let mut len: usize = 12;
    for object in objects {
        let more = object_len(alloc, object)?;
        len = len.saturating_add(more);
    }
    Ok(len)
}
