//! Copies.

ghost use Rattle.std.specs.Prelude.{◌≡◌, IfOk};

use crate::{DirLump, FullBit, MetaBlob, NullBit, RemoteBit};
use mj_base::Items;
use std::alloc::{AllocError, Global};

impl FullBit {
    pub fn copy(&self, alloc: Global) -> Result<FullBit, AllocError>
        ensures { IfOk result (λ same. same ≡ self.now) }
    {
        Ok(FullBit {
            name: self.name.copy(alloc)?,
            version: self.version,
            inode: self.inode.copy(alloc)?,
        })
    }
}

impl RemoteBit {
    pub fn copy(&self, alloc: Global) -> Result<RemoteBit, AllocError>
        ensures { IfOk result (λ same. same ≡ self.now) }
    {
        Ok(RemoteBit {
            name: self.name.copy(alloc)?,
            version: self.version,
            ino: self.ino,
            kind: self.kind,
        })
    }
}

impl NullBit {
    pub fn copy(&self, alloc: Global) -> Result<NullBit, AllocError>
        ensures { IfOk result (λ same. same ≡ self.now) }
    {
        Ok(NullBit {
            name: self.name.copy(alloc)?,
            version: self.version,
        })
    }
}

fn copy_fulls(alloc: Global, bits: &Items<FullBit>) -> Result<Items<FullBit>, AllocError>
    ensures { IfOk result (λ same. same ≡ bits.now) }
{
    let mut all = Vec::new(alloc);
    for bit in bits.as_slice() {
        all.push(bit.copy(alloc)?)?;
    }
    Ok(Items::from_vec(all))
}

fn copy_remotes(alloc: Global, bits: &Items<RemoteBit>) -> Result<Items<RemoteBit>, AllocError>
    ensures { IfOk result (λ same. same ≡ bits.now) }
{
    let mut all = Vec::new(alloc);
    for bit in bits.as_slice() {
        all.push(bit.copy(alloc)?)?;
    }
    Ok(Items::from_vec(all))
}

fn copy_nulls(alloc: Global, bits: &Items<NullBit>) -> Result<Items<NullBit>, AllocError>
    ensures { IfOk result (λ same. same ≡ bits.now) }
{
    let mut all = Vec::new(alloc);
    for bit in bits.as_slice() {
        all.push(bit.copy(alloc)?)?;
    }
    Ok(Items::from_vec(all))
}

impl DirLump {
    pub fn copy(&self, alloc: Global) -> Result<DirLump, AllocError>
        ensures { IfOk result (λ same. same ≡ self.now) }
    {
        Ok(DirLump {
            dir: self.dir,
            head: self.head,
            full: copy_fulls(alloc, &self.full)?,
            remote: copy_remotes(alloc, &self.remote)?,
            null: copy_nulls(alloc, &self.null)?,
        })
    }
}

fn copy_lumps(alloc: Global, lumps: &Items<DirLump>) -> Result<Items<DirLump>, AllocError>
    ensures { IfOk result (λ same. same ≡ lumps.now) }
{
    let mut all = Vec::new(alloc);
    for lump in lumps.as_slice() {
        all.push(lump.copy(alloc)?)?;
    }
    Ok(Items::from_vec(all))
}

impl MetaBlob {
    pub fn copy(&self, alloc: Global) -> Result<MetaBlob, AllocError>
        ensures { IfOk result (λ same. same ≡ self.now) }
    {
        Ok(MetaBlob {
            lumps: copy_lumps(alloc, &self.lumps)?,
        })
    }
}
