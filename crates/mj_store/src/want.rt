//! What is to be read of a store, and what was.

use crate::answer::Page;
use mj_base::{Items, ObjectName};

/// One read of a store.
#[derive(Clone, Copy)]
pub enum Want<'a> {
    /// Bytes from this offset on, at most `len`.
    Read {
        name: ObjectName,
        from: u64,
        len: u32,
    },
    /// Pairs whose keys are above `after`, at most `most`, which is at least 1.
    Page {
        name: ObjectName,
        after: Option<&'a [u8]>,
        most: u32,
    },
}

/// What a want was answered with.
#[derive(Drop)]
pub enum Got {
    Bytes(Items<u8>),
    Keys(Page),
}
