// What is read of an object.
ghost use Rattle.std.specs.Prelude.{◌≡◌, ◌≤◌, take, drop, length, Option, option_copied, filter, T, IfOk, IfSome};
ghost use Rattle.std.specs.FinMap.Entries.{is_sorted};
ghost use Rattle.mj_maps.specs.Orders.{bytes_cmp};
ghost use Rattle.mj_store.specs.declared.act.Pair.{Pair};
ghost use Rattle.mj_store.specs.Pages.{page_of, is_above, IsPage};
ghost use Rattle.mj_memstore.specs.Content.{held_content, map_of, IsShort, IsSound};
ghost use Rattle.mj_memstore.specs.Pairs.{entries_of};
ghost use Rattle.mj_memstore.specs.Memory.{object_in};

use crate::objects::Objects;
use crate::pairs::find;
use mj_base::Items;
use mj_store::{HeldObject, ObjectName, Page, Pair, copy_head, copy_pairs};
use std::alloc::{AllocError, Global};

/// The object of this name.
pub fn object_named<'a>(objects: &'a Objects, name: &ObjectName) -> Option<&'a HeldObject>
    ensures object { held_content (option_copied result) ≡ (object_in objects.entry.now.entries name.now).held }
    ensures sorted { IfSome result (λ h. T (is_sorted bytes_cmp (entries_of h.now.pairs))) }
    ensures short { IfSome result (λ h. IsShort (map_of h.now.pairs)) }
{
    match objects.get(name) {
        Some(held) => held.object(),
        None => None,
    }
}

/// Bytes from an offset on, at most `len`.
pub fn bytes_from(alloc: Global, bytes: &[u8], from: u64, len: u32) -> Result<Vec<u8>, AllocError>
    ensures { IfOk result (λ v. v.items ≡ take len (drop from bytes.now)) }
{
    let start = (from as usize).min(bytes.len());
    let end = start + (len as usize).min(bytes.len() - start);
    Vec::from_slice(alloc, &bytes[start..end])
}

/// The first pairs whose keys are above `after`, at most `most`.
pub fn page_from(
    alloc: Global,
    object: Option<&HeldObject>,
    after: Option<&[u8]>,
    most: u32,
) -> Result<Page, AllocError>
    requires sorted { IfSome object (λ h. T (is_sorted bytes_cmp (entries_of h.now.pairs))) }
    requires short { IfSome object (λ h. IsShort (map_of h.now.pairs)) }
    ensures page { IfOk result (λ page. page ≡ page_of (option_copied after.entry) most (held_content (option_copied object.entry))) }
    ensures shape { IfOk result (IsPage (option_copied after.entry) most) }
{
    let Some(object) = object else {
        return Ok(Page {
            present: false,
            head: None,
            pairs: Items::from_vec(Vec::new(alloc)),
            more: false,
        });
    };
    let pairs = object.pairs.as_slice();
    let above = &pairs[place_above(pairs, after)..];
    let count = (most as usize).min(above.len());
    Ok(Page {
        present: true,
        head: copy_head(alloc, &object.head)?,
        pairs: copy_pairs(alloc, &above[..count])?,
        more: count < above.len(),
    })
}

// Where the pairs begin whose keys are above a key.
fn place_above(pairs: &[Pair], after: Option<&[u8]>) -> usize
    requires { T (is_sorted bytes_cmp (entries_of pairs.now)) }
    ensures within { result ≤ length pairs.now }
    ensures above { filter (λ (p : Pair). is_above (option_copied after.entry) p.key) pairs.now ≡ drop result pairs.now }
{
    let Some(key) = after else {
        return 0;
    };
    match find(pairs, key) {
        Ok(i) => i + 1,
        Err(i) => i,
    }
}
