//! Writing an image.
ghost use Rattle.std.specs.Prelude.{◌≡◌, ◌++◌, ◌<◌, ◌^◌, Ok, map, length, IfOk, OnOk, IfErr};
ghost use Rattle.std.specs.List.{flat_map, AllByRecursion};
ghost use Rattle.mj_base.specs.Reading.{optional};
ghost use Rattle.mj_store.specs.State.{contents};
ghost use Rattle.mj_memstore.specs.Holding.{AreAll};
ghost use Rattle.mj_memstore.specs.Store.{memory_state, memory_objects};
ghost use Rattle.mj_image.specs.Image.{long_bytes, pair_bytes, object_bytes, image_bytes, HasShortHead, IsShortPair, IsStorable};
ghost use Rattle.mj_image.specs.Whole.{image_of, IsWriteRefusal};

use crate::refusal::ImageWriteRefusal;
use crate::size::{image_len, text_of};
use mj_base::limits::{IMAGE_MAGIC, MAX_FILE_BYTES};
use mj_base::{Items, put_u8, put_u16, put_u32, put_u64};
use mj_memstore::{HeldObject, MemStore};
use mj_store::Pair;
use std::alloc::{AllocError, Global};

/// The image of the applied contents of a store.
pub fn image_write(alloc: Global, store: &MemStore) -> Result<Vec<u8>, ImageWriteRefusal>
    ensures ok { IfOk result (λ bytes. bytes.items ≡ image_bytes (memory_objects store.now)) }
    ensures read_again { IfOk result (λ bytes. image_of bytes.items ≡ Ok (memory_objects store.now)) }
    ensures refused { IfErr result (λ why. IsWriteRefusal why (length (image_bytes (memory_objects store.now)))) }
    ensures all { AreAll (memory_objects store.now) (contents (memory_state store.now)) }
{
    let all = store.all_objects(alloc)?;
    let objects = all.as_slice();
    let len = image_len(alloc, objects)?;
    if len > MAX_FILE_BYTES as usize {
        return Err(ImageWriteRefusal::TooLong(len as u64));
    }
    let mut out = Vec::with_capacity(alloc, len)?;
    append_image(alloc, objects, &mut out)?;
    Ok(out)
}

fn append_image(alloc: Global, objects: &[&HeldObject], out: &mut Vec<u8>) -> Result<(), AllocError>
    requires count { length objects.now < 2 ^ 32 }
    requires objects { AllByRecursion IsStorable (map (λ h. h.now) objects.now) }
    ensures { OnOk result (out.new.items ≡ out.old.items ++ image_bytes (map (λ h. h.now) objects.now)) }
{
    out.extend_from_slice(IMAGE_MAGIC)?;
    put_u32(objects.len() as u32, out)?;
    append_objects(alloc, objects, out)
}

fn append_objects(
    alloc: Global,
    objects: &[&HeldObject],
    out: &mut Vec<u8>,
) -> Result<(), AllocError>
    requires { AllByRecursion IsStorable (map (λ h. h.now) objects.now) }
    ensures { OnOk result (out.new.items ≡ out.old.items ++ flat_map (λ h. object_bytes h.now) objects.now) }
{
    for object in objects {
        append_object(alloc, object, out)?;
    }
    Ok(())
}

fn append_object(alloc: Global, object: &HeldObject, out: &mut Vec<u8>) -> Result<(), AllocError>
    requires { IsStorable object.now }
    ensures { OnOk result (out.new.items ≡ out.old.items ++ object_bytes object.now) }
{
    let text = text_of(alloc, &object.name)?;
    put_u16(text.len() as u16, out)?;
    out.extend_from_slice(&text)?;
    put_u64(object.bytes.len() as u64, out)?;
    out.extend_from_slice(object.bytes.as_slice())?;
    append_head(&object.head, out)?;
    put_u32(object.pairs.len() as u32, out)?;
    append_pairs(object.pairs.as_slice(), out)
}

fn append_head(head: &Option<Items<u8>>, out: &mut Vec<u8>) -> Result<(), AllocError>
    requires { HasShortHead head.now }
    ensures { OnOk result (out.new.items ≡ out.old.items ++ optional long_bytes head.now) }
{
    match head {
        Some(head) => {
            put_u8(1, out)?;
            put_u32(head.len() as u32, out)?;
            out.extend_from_slice(head.as_slice())
        }
        None => put_u8(0, out),
    }
}

fn append_pairs(pairs: &[Pair], out: &mut Vec<u8>) -> Result<(), AllocError>
    requires { AllByRecursion IsShortPair pairs.now }
    ensures { OnOk result (out.new.items ≡ out.old.items ++ flat_map pair_bytes pairs.now) }
{
    for pair in pairs {
        append_pair(pair, out)?;
    }
    Ok(())
}

fn append_pair(pair: &Pair, out: &mut Vec<u8>) -> Result<(), AllocError>
    requires { IsShortPair pair.now }
    ensures { OnOk result (out.new.items ≡ out.old.items ++ pair_bytes pair.now) }
{
    put_u16(pair.key.len() as u16, out)?;
    out.extend_from_slice(pair.key.as_slice())?;
    put_u32(pair.value.len() as u32, out)?;
    out.extend_from_slice(pair.value.as_slice())
}
