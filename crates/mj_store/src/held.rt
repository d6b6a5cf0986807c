//! Objects as a store in memory holds them.

use crate::act::Pair;
use mj_base::{Items, ObjectName};

/// An object: its bytes, its head where it has one, and its pairs in the order of their keys.
#[derive(Drop)]
pub struct HeldObject {
    pub name: ObjectName,
    pub bytes: Items<u8>,
    pub head: Option<Items<u8>>,
    pub pairs: Items<Pair>,
}
