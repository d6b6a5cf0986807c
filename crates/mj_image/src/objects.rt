// Reading objects.
ghost use Rattle.std.specs.Prelude.{◌≡◌, None, option_copied};
ghost use Rattle.mj_image.specs.Reading.{run_of, pair_at, object_at, objects_at};
ghost use Rattle.mj_image.specs.Stops.{Gives};

use crate::fields::{read_head, read_name, read_pair};
use crate::flaw::Stop;
use mj_base::{Cursor, Items};
use mj_store::{HeldObject, Pair};
use std::alloc::Global;

fn read_pairs(alloc: Global, count: u32, cursor: &mut Cursor<'_>) -> Result<Vec<Pair>, Stop>
    ensures { Gives (λ v. v.items) result cursor.new (run_of pair_at count None cursor.old) }
{
    let mut pairs = Vec::new(alloc);
    for _n in 0..count {
        let pair = read_pair(alloc, pairs.last(), cursor)?;
        pairs.push(pair)?;
    }
    Ok(pairs)
}

#[tactic(auto, unfolding(crate::specs::Reading::object_at))]
fn read_object(
    alloc: Global,
    before: Option<&HeldObject>,
    cursor: &mut Cursor<'_>,
) -> Result<HeldObject, Stop>
    ensures { Gives (λ x. x) result cursor.new (object_at (option_copied before.entry) cursor.old) }
{
    let before = match before {
        Some(object) => Some(&object.name),
        None => None,
    };
    let name = read_name(before, cursor)?;
    let len = cursor.read_u64()?;
    let bytes = cursor.read_bytes(len as usize)?;
    let head = read_head(alloc, cursor)?;
    let count = cursor.read_u32()?;
    let pairs = read_pairs(alloc, count, cursor)?;
    Ok(HeldObject {
        name,
        bytes: Items::of_bytes(alloc, bytes)?,
        head,
        pairs: Items::from_vec(pairs),
    })
}

fn read_run(alloc: Global, count: u32, cursor: &mut Cursor<'_>) -> Result<Vec<HeldObject>, Stop>
    ensures { Gives (λ v. v.items) result cursor.new (run_of object_at count None cursor.old) }
{
    let mut objects = Vec::new(alloc);
    for _n in 0..count {
        let object = read_object(alloc, objects.last(), cursor)?;
        objects.push(object)?;
    }
    Ok(objects)
}

// All objects behind their count.
#[tactic(auto, unfolding(crate::specs::Reading::objects_at))]
pub fn read_objects(alloc: Global, cursor: &mut Cursor<'_>) -> Result<Vec<HeldObject>, Stop>
    ensures { Gives (λ v. v.items) result cursor.new (objects_at cursor.old) }
{
    let count = cursor.read_u32()?;
    read_run(alloc, count, cursor)
}
