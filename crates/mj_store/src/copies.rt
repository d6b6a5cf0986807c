// Copies of what a store is asked and answers.
ghost use Rattle.std.specs.Prelude.{◌≡◌, IfOk};

use crate::act::{HeadAct, ObjectAct, ObjectOp, Pair};
use crate::answer::Page;
use crate::held::HeldObject;
use crate::want::Got;
use mj_base::Items;
use std::alloc::{AllocError, Global};

/// The same pairs.
pub fn copy_pairs(alloc: Global, pairs: &[Pair]) -> Result<Items<Pair>, AllocError>
    ensures { IfOk result (λ items. items ≡ pairs.now) }
{
    let mut items = Vec::with_capacity(alloc, pairs.len())?;
    for pair in pairs {
        items.push(pair.copy(alloc)?)?;
    }
    Ok(Items::from_vec(items))
}

// The same lists of bytes.
fn copy_lists(alloc: Global, lists: &[Items<u8>]) -> Result<Items<Items<u8>>, AllocError>
    ensures { IfOk result (λ items. items ≡ lists.now) }
{
    let mut items = Vec::with_capacity(alloc, lists.len())?;
    for list in lists {
        items.push(list.copy(alloc)?)?;
    }
    Ok(Items::from_vec(items))
}

/// The same head, or none.
pub fn copy_head(alloc: Global, head: &Option<Items<u8>>) -> Result<Option<Items<u8>>, AllocError>
    ensures { IfOk result (λ copied. copied ≡ head.now) }
{
    match head {
        Some(head) => Ok(Some(head.copy(alloc)?)),
        None => Ok(None),
    }
}

impl Pair {
    /// The same pair.
    pub fn copy(&self, alloc: Global) -> Result<Pair, AllocError>
        ensures { IfOk result (λ pair. pair ≡ self.now) }
    {
        Ok(Pair {
            key: self.key.copy(alloc)?,
            value: self.value.copy(alloc)?,
        })
    }
}

impl HeadAct {
    /// The same act.
    pub fn copy(&self, alloc: Global) -> Result<HeadAct, AllocError>
        ensures { IfOk result (λ act. act ≡ self.now) }
    {
        match self {
            HeadAct::Leave => Ok(HeadAct::Leave),
            HeadAct::Put(head) => Ok(HeadAct::Put(head.copy(alloc)?)),
        }
    }
}

impl ObjectAct {
    /// The same act.
    pub fn copy(&self, alloc: Global) -> Result<ObjectAct, AllocError>
        ensures { IfOk result (λ act. act ≡ self.now) }
    {
        match self {
            ObjectAct::Write { at, bytes } => Ok(ObjectAct::Write {
                at: *at,
                bytes: bytes.copy(alloc)?,
            }),
            ObjectAct::Truncate { len } => Ok(ObjectAct::Truncate { len: *len }),
            ObjectAct::Remove => Ok(ObjectAct::Remove),
            ObjectAct::Keys { set, drop, head } => Ok(ObjectAct::Keys {
                set: copy_pairs(alloc, set.as_slice())?,
                drop: copy_lists(alloc, drop.as_slice())?,
                head: head.copy(alloc)?,
            }),
        }
    }
}

impl ObjectOp {
    /// The same operation.
    pub fn copy(&self, alloc: Global) -> Result<ObjectOp, AllocError>
        ensures { IfOk result (λ op. op ≡ self.now) }
    {
        Ok(ObjectOp {
            name: self.name,
            act: self.act.copy(alloc)?,
        })
    }
}

impl Page {
    /// The same page.
    pub fn copy(&self, alloc: Global) -> Result<Page, AllocError>
        ensures { IfOk result (λ page. page ≡ self.now) }
    {
        Ok(Page {
            present: self.present,
            head: copy_head(alloc, &self.head)?,
            pairs: copy_pairs(alloc, self.pairs.as_slice())?,
            more: self.more,
        })
    }
}

impl Got {
    /// The same answer.
    pub fn copy(&self, alloc: Global) -> Result<Got, AllocError>
        ensures { IfOk result (λ got. got ≡ self.now) }
    {
        match self {
            Got::Bytes(bytes) => Ok(Got::Bytes(bytes.copy(alloc)?)),
            Got::Keys(page) => Ok(Got::Keys(page.copy(alloc)?)),
        }
    }
}

impl HeldObject {
    /// The same object.
    pub fn copy(&self, alloc: Global) -> Result<HeldObject, AllocError>
        ensures { IfOk result (λ object. object ≡ self.now) }
    {
        Ok(HeldObject {
            name: self.name,
            bytes: self.bytes.copy(alloc)?,
            head: copy_head(alloc, &self.head)?,
            pairs: copy_pairs(alloc, self.pairs.as_slice())?,
        })
    }
}
