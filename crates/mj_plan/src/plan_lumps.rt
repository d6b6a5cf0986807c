//! The lumps that say what a plan makes of dentries.

ghost use Rattle.std.specs.Prelude.{◌≡◌, ◌++◌, None, IfOk, OnOk, map, filter_map};
ghost use Rattle.std.specs.Option.{option_to_list};
ghost use Rattle.std.specs.BTreeMap.{IsOrdered};
ghost use Rattle.mj_maps.specs.Map.{entries, insert, empty, from_entries};
ghost use Rattle.mj_maps.specs.Orders.{nat_cmp, place_cmp};
ghost use Rattle.mj_meta.specs.declared.HeadBit.TheVariants.{Gone};
ghost use Rattle.mj_cache.specs.Cached.{early_table};
ghost use Rattle.mj_delta.specs.Plan.{touched, heads_of, lump_of, lumps_of};
ghost use Rattle.mj_plan.specs.Planning.{said, planned, dentries_in, onto, plan_in, full_said, remote_said, null_said, full_bit_at, remote_bit_at, null_bit_at};

use crate::dentry_plans::{Dentries, DentryPlan, Naming};
use crate::lumps::next_version;
use mj_base::{Ino, Items, Name};
use mj_cache::Cache;
use mj_meta::{DirLump, FullBit, HeadBit, NullBit, RemoteBit};
use std::alloc::{AllocError, Global};
use std::collections::BTreeMap;

/// The heads that are written, by directory.
type Heads = BTreeMap<Ino, HeadBit>;

// The dentries of one directory by what they say.
#[derive(Drop)]
struct Bits {
    full: Vec<FullBit>,
    remote: Vec<RemoteBit>,
    null: Vec<NullBit>,
}

fn put_head(heads: &mut Heads, dir: Ino, head: HeadBit) -> Result<(), AllocError>
    ensures { OnOk result (from_entries {R = nat_cmp} heads.new.entries ≡ insert (from_entries heads.old.entries) dir head) }
{
    heads.insert(dir, head)?;
    Ok(())
}

// The head of each directory of a dentry that changes, with its next version.
fn touched_heads(alloc: Global, cache: &Cache, dentries: &Dentries) -> Result<Heads, AllocError>
    ensures heads { IfOk result (λ heads. from_entries {R = nat_cmp} heads.entries ≡ onto empty (map (touched (early_table cache.now)) (map planned dentries.now.entries))) }
    ensures ordered { IsOrdered place_cmp dentries.now }
{
    let mut heads = BTreeMap::new(alloc);
    for (place, _) in dentries.iter() {
        let version = next_version(cache, place.0);
        put_head(&mut heads, place.0, HeadBit::At(version))?;
    }
    Ok(heads)
}

// And the head of the directory that goes is gone.
fn without_head(heads: Heads, dir: Ino) -> Result<Heads, AllocError>
    ensures { IfOk result (λ without. from_entries {R = nat_cmp} without.entries ≡ insert (from_entries heads.entries) dir Gone) }
{
    let mut heads = heads;
    put_head(&mut heads, dir, HeadBit::Gone)?;
    Ok(heads)
}

fn heads_of(alloc: Global, cache: &Cache, plan: &DentryPlan) -> Result<Heads, AllocError>
    ensures { IfOk result (λ heads. from_entries {R = nat_cmp} heads.entries ≡ heads_of (early_table cache.now) (plan_in plan.now)) }
{
    let heads = touched_heads(alloc, cache, &plan.dentries)?;
    match plan.removed {
        Some(dir) => without_head(heads, dir),
        None => Ok(heads),
    }
}

// Adds what the lump of a directory says of a name in it.
fn add_said(
    alloc: Global,
    bits: &mut Bits,
    version: u64,
    name: Name,
    says: &Option<Naming>,
) -> Result<(), AllocError>
    ensures full { OnOk result (bits.new.full.items ≡ bits.old.full.items ++ option_to_list (full_said version name (said says.now))) }
    ensures remote { OnOk result (bits.new.remote.items ≡ bits.old.remote.items ++ option_to_list (remote_said version name (said says.now))) }
    ensures null { OnOk result (bits.new.null.items ≡ bits.old.null.items ++ option_to_list (null_said version name (said says.now))) }
{
    match says {
        Some(Naming::Full(inode)) => {
            let inode = inode.copy(alloc)?;
            bits.full.push(FullBit {
                name,
                version,
                inode,
            })?;
            Ok(())
        }
        Some(Naming::Remote(ino, kind)) => {
            bits.remote.push(RemoteBit {
                name,
                version,
                ino: *ino,
                kind: *kind,
            })?;
            Ok(())
        }
        None => {
            bits.null.push(NullBit { name, version })?;
            Ok(())
        }
    }
}

// Adds what the lump of a directory says of a dentry, if that is of it.
fn add_bit(
    alloc: Global,
    bits: &mut Bits,
    dir: Ino,
    version: u64,
    place: &(Ino, Name),
    says: &Option<Naming>,
) -> Result<(), AllocError>
    ensures full { OnOk result (bits.new.full.items ≡ bits.old.full.items ++ option_to_list (full_bit_at dir version (place.now, said says.now))) }
    ensures remote { OnOk result (bits.new.remote.items ≡ bits.old.remote.items ++ option_to_list (remote_bit_at dir version (place.now, said says.now))) }
    ensures null { OnOk result (bits.new.null.items ≡ bits.old.null.items ++ option_to_list (null_bit_at dir version (place.now, said says.now))) }
{
    if place.0 != dir {
        return Ok(());
    }
    let name = place.1.copy(alloc)?;
    add_said(alloc, bits, version, name, says)
}

// What the lump of a directory says of the dentries of it.
fn bits_of(alloc: Global, dentries: &Dentries, dir: Ino, version: u64) -> Result<Bits, AllocError>
    ensures full { IfOk result (λ bits. bits.full.items ≡ filter_map (full_bit_at dir version) (map planned dentries.now.entries)) }
    ensures remote { IfOk result (λ bits. bits.remote.items ≡ filter_map (remote_bit_at dir version) (map planned dentries.now.entries)) }
    ensures null { IfOk result (λ bits. bits.null.items ≡ filter_map (null_bit_at dir version) (map planned dentries.now.entries)) }
    ensures ordered { IsOrdered place_cmp dentries.now }
{
    let mut bits = Bits {
        full: Vec::new(alloc),
        remote: Vec::new(alloc),
        null: Vec::new(alloc),
    };
    for (place, says) in dentries.iter() {
        add_bit(alloc, &mut bits, dir, version, place, says)?;
    }
    Ok(bits)
}

// The lump of a directory whose head is written.
fn lump_of(
    alloc: Global,
    cache: &Cache,
    dentries: &Dentries,
    dir: Ino,
    head: HeadBit,
) -> Result<DirLump, AllocError>
    ensures { IfOk result (λ lump. lump ≡ lump_of (early_table cache.now) (entries (dentries_in dentries.now)) (dir, head)) }
{
    let bits = bits_of(alloc, dentries, dir, next_version(cache, dir))?;
    Ok(DirLump {
        dir,
        head,
        full: Items::from_vec(bits.full),
        remote: Items::from_vec(bits.remote),
        null: Items::from_vec(bits.null),
    })
}

fn lumps_under(
    alloc: Global,
    cache: &Cache,
    dentries: &Dentries,
    heads: &Heads,
) -> Result<Vec<DirLump>, AllocError>
    ensures lumps { IfOk result (λ lumps. lumps.items ≡ map (lump_of (early_table cache.now) (entries (dentries_in dentries.now))) heads.now.entries) }
    ensures ordered { IsOrdered nat_cmp heads.now }
{
    let mut lumps = Vec::new(alloc);
    for (dir, head) in heads.iter() {
        lumps.push(lump_of(alloc, cache, dentries, *dir, *head)?)?;
    }
    Ok(lumps)
}

/// A lump for each directory whose head is written.
pub fn lumps_of(alloc: Global, cache: &Cache, plan: &DentryPlan) -> Result<Vec<DirLump>, AllocError>
    ensures { IfOk result (λ lumps. lumps.items ≡ lumps_of (early_table cache.now) (plan_in plan.now)) }
{
    let heads = heads_of(alloc, cache, plan)?;
    lumps_under(alloc, cache, &plan.dentries, &heads)
}
