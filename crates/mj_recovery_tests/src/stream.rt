//! The stream of a journal, among the objects that hold it.

ghost use Rattle.std.specs.Prelude.{◌≡◌, ◌≤◌, ◌^◌, IfOk};
ghost use Rattle.std.specs.Option.{option_copied};
ghost use Rattle.mj_store.specs.Object.{same_name};
ghost use Rattle.mj_recovery.specs.Stream.{byte_at, stream};
ghost use Rattle.mj_recovery.specs.Listed.{found, image_of};

use mj_base::{ObjectName, RankNo};
use mj_layout::{Layout, journal_object};
use mj_store::HeldObject;
use std::alloc::{AllocError, Global};

/// Positions end here.
const END: u64 = 1 << 62;

/// Whether two names name one object.
pub fn is_same(a: &ObjectName, b: &ObjectName) -> bool
    ensures { result ≡ same_name a.now b.now }
{
    match (a, b) {
        (ObjectName::File { ino, index }, ObjectName::File { ino: i, index: x }) => {
            ino == i && index == x
        }
        (ObjectName::InoTable(r), ObjectName::InoTable(s)) => r == s,
        (ObjectName::SessionMap(r), ObjectName::SessionMap(s)) => r == s,
        _ => false,
    }
}

/// The object of this name.
pub fn find<'a>(objects: &'a [HeldObject], name: &ObjectName) -> Option<&'a HeldObject>
    ensures { option_copied result ≡ found name.now objects.now }
{
    for object in objects {
        if is_same(name, &object.name) {
            return Some(object);
        }
    }
    None
}

#[tactic(auto, unfolding(mj_recovery::specs::Stream::byte_at))]
fn byte_at(objects: &[HeldObject], rank: RankNo, layout: &Layout, x: u64) -> Option<u8>
    ensures { result ≡ byte_at (image_of objects.now) rank layout.now x }
{
    let spot = layout.place(x);
    let object = find(objects, &journal_object(rank, spot.index))?;
    object.bytes.as_slice().get(spot.offset as usize).copied()
}

/// The bytes from a position on, up to the first that is missing.
pub fn stream(
    alloc: Global,
    objects: &[HeldObject],
    rank: RankNo,
    layout: &Layout,
    from: u64,
) -> Result<Vec<u8>, AllocError>
    requires { from ≤ 2 ^ 62 }
    ensures { IfOk result (λ v. v.items ≡ stream (image_of objects.now) rank layout.now from) }
{
    let mut bytes = Vec::new(alloc);
    for x in from..END {
        match byte_at(objects, rank, layout, x) {
            Some(byte) => bytes.push(byte)?,
            None => return Ok(bytes),
        }
    }
    Ok(bytes)
}
