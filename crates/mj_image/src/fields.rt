// Reading the fields of an object.
ghost use Rattle.std.specs.Prelude.{◌≡◌, option_copied};
ghost use Rattle.mj_store.specs.Pages.{is_above};
ghost use Rattle.mj_image.specs.Naming.{object_named};
ghost use Rattle.mj_image.specs.Reading.{name_above, name_at, key_at, long_at, pair_at, head_at};
ghost use Rattle.mj_image.specs.Stops.{Gives};

use crate::flaw::{Flaw, Stop};
use mj_base::{Cursor, Items, ObjectName};
use mj_store::Pair;
use std::alloc::Global;

// The object that a text names.
fn named(text: &[u8]) -> Option<ObjectName>
    ensures { result ≡ object_named text.now }
{
    ObjectName::read(text)
}

// A name above the one before.
#[tactic(auto, unfolding(crate::specs::Reading::name_at))]
pub fn read_name(before: Option<&ObjectName>, cursor: &mut Cursor<'_>) -> Result<ObjectName, Stop>
    ensures { Gives (λ x. x) result cursor.new (name_at (option_copied before.entry) cursor.old) }
{
    let len = cursor.read_u16()?;
    let left = cursor.left();
    let text = cursor.read_bytes(len as usize)?;
    let Some(name) = named(text) else {
        return Err(Stop::At(Flaw::BadName(left)));
    };
    if is_name_above(before, &name) {
        Ok(name)
    } else {
        Err(Stop::At(Flaw::BadOrder(left)))
    }
}

fn is_name_above(before: Option<&ObjectName>, name: &ObjectName) -> bool
    ensures { result ≡ name_above (option_copied before.entry) name.now }
{
    match before {
        Some(before) => before.cmp(name).is_lt(),
        None => true,
    }
}

// A key above the one before.
#[tactic(auto, unfolding(crate::specs::Reading::key_at))]
fn read_key<'a>(before: Option<&[u8]>, cursor: &mut Cursor<'a>) -> Result<&'a [u8], Stop>
    ensures { Gives (λ x. x.now) result cursor.new (key_at (option_copied before.entry) cursor.old) }
{
    let len = cursor.read_u16()?;
    let left = cursor.left();
    let key = cursor.read_bytes(len as usize)?;
    if is_key_above(before, key) {
        Ok(key)
    } else {
        Err(Stop::At(Flaw::BadOrder(left)))
    }
}

fn is_key_above(before: Option<&[u8]>, key: &[u8]) -> bool
    ensures { result ≡ is_above (option_copied before.entry) key.now }
{
    match before {
        Some(before) => before.cmp(key).is_lt(),
        None => true,
    }
}

// Bytes behind their length.
#[tactic(auto, unfolding(crate::specs::Reading::long_at))]
fn read_long<'a>(cursor: &mut Cursor<'a>) -> Result<&'a [u8], Stop>
    ensures { Gives (λ x. x.now) result cursor.new (long_at cursor.old) }
{
    let len = cursor.read_u32()?;
    Ok(cursor.read_bytes(len as usize)?)
}

#[tactic(auto, unfolding(crate::specs::Reading::pair_at))]
pub fn read_pair(
    alloc: Global,
    before: Option<&Pair>,
    cursor: &mut Cursor<'_>,
) -> Result<Pair, Stop>
    ensures { Gives (λ x. x) result cursor.new (pair_at (option_copied before.entry) cursor.old) }
{
    let before = match before {
        Some(pair) => Some(pair.key.as_slice()),
        None => None,
    };
    let key = read_key(before, cursor)?;
    let value = read_long(cursor)?;
    Ok(Pair {
        key: Items::of_bytes(alloc, key)?,
        value: Items::of_bytes(alloc, value)?,
    })
}

// A flag, and behind a 1 the head.
pub fn read_head(alloc: Global, cursor: &mut Cursor<'_>) -> Result<Option<Items<u8>>, Stop>
    ensures { Gives (λ x. x) result cursor.new (head_at cursor.old) }
{
    let left = cursor.left();
    match cursor.read_u8()? {
        0 => Ok(None),
        1 => Ok(Some(Items::of_bytes(alloc, read_long(cursor)?)?)),
        _ => Err(Stop::At(Flaw::BadFlag(left))),
    }
}
