//! Reading the names of bits.

ghost use Rattle.std.specs.Prelude.{◌≡◌, ◌≢◌, false, IfOk, IsTrue, MatchOption};
ghost use Rattle.std.specs.Option.{option_copied};
ghost use Rattle.mj_base.specs.InOrder.{bytes_cmp};
ghost use Rattle.mj_base.specs.Reading.{is_above};
ghost use Rattle.std.specs.Ordering.{is_lt};
ghost use Rattle.mj_base.specs.Name.{is_name};
ghost use Rattle.mj_base.specs.declared.name.NameRefusal.TheVariants.{Memory};
ghost use Rattle.mj_base.specs.Cursor.{Reads};
ghost use Rattle.mj_meta.specs.Blob.{is_in, full_names, remote_names, name_follows};
ghost use Rattle.mj_meta.specs.BlobReading.{name_at};
ghost use Rattle.mj_meta.specs.Earlier.{earlier_names, DoRise, NamesRise};

use crate::{FullBit, RemoteBit};
use mj_base::limits::MAX_NAME;
use mj_base::{Cursor, Fault, Name, NameRefusal};
use std::alloc::{AllocError, Global};
use std::cmp::Ordering;

/// The lists of a lump that stand before the one that is read, whose names may not stand again.
/// The names of each list rise.
#[derive(Clone, Copy)]
pub enum Earlier<'a> {
    Nothing,
    Full(&'a [FullBit]),
    Both(&'a [FullBit], &'a [RemoteBit]),
}

fn compared(name: &Name, other: &[u8]) -> Ordering
    ensures { result ≡ bytes_cmp name.now other.now }
{
    name.as_slice().cmp(other)
}

fn full_has(bits: &[FullBit], name: &[u8]) -> bool
    requires { NamesRise (λ (b : FullBit). b.name) bits.now }
    ensures { result ≡ is_in (full_names bits.now) name.now }
{
    bits.binary_search_by(|b| compared(&b.name, name)).is_ok()
}

fn remote_has(bits: &[RemoteBit], name: &[u8]) -> bool
    requires { NamesRise (λ (b : RemoteBit). b.name) bits.now }
    ensures { result ≡ is_in (remote_names bits.now) name.now }
{
    bits.binary_search_by(|b| compared(&b.name, name)).is_ok()
}

fn earlier_has(earlier: Earlier<'_>, name: &[u8]) -> bool
    requires { DoRise earlier }
    ensures { result ≡ is_in (earlier_names earlier.entry) name.now }
{
    match earlier {
        Earlier::Nothing => false,
        Earlier::Full(fulls) => full_has(fulls, name),
        Earlier::Both(fulls, remotes) => full_has(fulls, name) || remote_has(remotes, name),
    }
}

fn is_above(before: Option<&Name>, name: &Name) -> bool
    ensures { result ≡ is_above (λ a b. is_lt (bytes_cmp a b)) (option_copied before.entry) name.now }
{
    match before {
        Some(before) => before < name,
        None => true,
    }
}

// The name of these bytes, where they are one.
fn name_of(alloc: Global, bytes: &[u8]) -> Result<Option<Name>, AllocError>
    ensures name { IfOk result (λ r. MatchOption r (is_name bytes.now ≡ false) (λ name. name ≡ bytes.now)) }
    ensures is_one { IfOk result (λ r. MatchOption r (is_name bytes.now ≡ false) (λ name. IsTrue (is_name bytes.now))) }
{
    match Name::read(alloc, bytes) {
        Ok(name) => Ok(Some(name)),
        Err(why) => {
            unless_memory(why)?;
            Ok(None)
        }
    }
}

fn unless_memory(why: NameRefusal) -> Result<(), AllocError>
    ensures { IfOk result (λ _. why ≢ Memory) }
{
    match why {
        NameRefusal::Memory => Err(AllocError),
        _ => Ok(()),
    }
}

/// A name that is above the one before and is not among the earlier lists'.
#[tactic(auto, unfolding(crate::specs::BlobReading::name_at))]
pub fn read_name(
    alloc: Global,
    earlier: Earlier<'_>,
    before: Option<&Name>,
    cursor: &mut Cursor<'_>,
) -> Result<Name, Fault>
    requires { DoRise earlier }
    ensures { Reads (λ x. x) result cursor.new (name_at (earlier_names earlier.entry) (option_copied before.entry) cursor.old) }
{
    let left = cursor.left();
    let len = cursor.read_u16()?;
    if len < 1 || len as usize > MAX_NAME {
        return Err(Fault::Left(left));
    }
    let left = cursor.left();
    let bytes = cursor.read_bytes(len as usize)?;
    let Some(name) = name_of(alloc, bytes)? else {
        return Err(Fault::Left(left));
    };
    if !is_above(before, &name) || earlier_has(earlier, name.as_slice()) {
        return Err(Fault::Left(left));
    }
    Ok(name)
}
