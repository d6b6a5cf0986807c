//! Objects of a journal on a store in memory.

use mj_base::{Items, RankNo};
use mj_layout::Layout;
use mj_memstore::MemStore;
use mj_store::{ObjectAct, ObjectName, ObjectOp, ObjectStore};
use std::alloc::Global;
use std::test::Fail;

pub fn rank() -> Result<RankNo, Fail> {
    Ok(RankNo::new(0).ok_or("a rank")?)
}

pub fn layout(su: u32, sc: u32, os: u32) -> Result<Layout, Fail> {
    match Layout::new(su, sc, os) {
        Ok(layout) => Ok(layout),
        Err(_) => Err(Fail::from("a layout was refused")),
    }
}

/// Puts bytes at an offset of an object of rank 0's journal. It takes two calls.
pub fn put(
    alloc: Global,
    store: &mut MemStore,
    index: u64,
    at: u64,
    bytes: Vec<u8>,
) -> Result<(), Fail> {
    let name = ObjectName::File { ino: 0x200, index };
    let bytes = Items::from_vec(bytes);
    let act = ObjectAct::Write { at, bytes };
    match store.submit(alloc, ObjectOp { name, act }) {
        Ok(_) => {
            let _ = store.step(&name)?;
            Ok(())
        }
        Err(_) => Err(Fail::from("a write was refused")),
    }
}
