//! What a store is asked to do.

use mj_base::{Items, ObjectName};

/// A key of an object, with its value.
#[derive(Drop)]
pub struct Pair {
    pub key: Items<u8>,
    pub value: Items<u8>,
}

/// What an operation on keys does to the object's head.
#[derive(Drop)]
pub enum HeadAct {
    /// It stays.
    Leave,
    /// It becomes these bytes.
    Put(Items<u8>),
}

/// What an operation does to its object. `Write` and `Keys` make an absent object, the others do nothing to one.
#[derive(Drop)]
pub enum ObjectAct {
    /// These bytes at this offset. A gap before them is filled with zeros.
    Write {
        at: u64,
        bytes: Items<u8>,
    },
    /// The object is cut to this length. It never becomes longer.
    Truncate {
        len: u64,
    },
    /// The object goes.
    Remove,
    /// Keys are dropped, then pairs are set in their order, and the head is left or put.
    Keys {
        set: Items<Pair>,
        drop: Items<Items<u8>>,
        head: HeadAct,
    },
}

/// An operation on one object. Each key in it has at most 65,535 bytes.
#[derive(Drop)]
pub struct ObjectOp {
    pub name: ObjectName,
    pub act: ObjectAct,
}
