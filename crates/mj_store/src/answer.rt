//! What a store answers.

ghost use Rattle.std.specs.Prelude.{◌≡◌};
ghost use Rattle.mj_store.specs.declared.answer.ReadRefusal.TheVariants.{Memory as read_memory};
ghost use Rattle.mj_store.specs.declared.answer.PerformRefusal.TheVariants.{Failed as perform_failed, Memory as perform_memory};
ghost use Rattle.mj_store.specs.Refusals.{perform_refusal};

use crate::act::{ObjectOp, Pair};
use mj_base::{Items, OpNo};
use std::alloc::{AllocError, AllocFailed};

/// An operation was tried. It was applied, or it failed and its object is blocked until `restart`.
#[derive(Clone, Copy, Debug, PartialEq, Eq)]
pub struct Ack {
    pub op: OpNo,
    pub done: bool,
}

/// A fault of the store, with its count of faults after the call.
#[derive(Clone, Copy, Debug, PartialEq, Eq)]
pub struct StoreFault {
    pub faults: u64,
}

/// Some of an object's pairs in the order of their keys.
#[derive(Drop)]
pub struct Page {
    /// Whether there is such an object.
    pub present: bool,
    pub head: Option<Items<u8>>,
    pub pairs: Items<Pair>,
    /// Whether there are pairs behind these.
    pub more: bool,
}

/// Why an operation was not added.
#[derive(Drop)]
pub enum SubmitRefusal {
    Failed(StoreFault),
    /// Want of memory, with the operation.
    Memory(ObjectOp),
}

/// Why nothing was read.
#[derive(Clone, Copy, Debug, PartialEq, Eq)]
pub enum ReadRefusal {
    Failed(StoreFault),
    /// Want of memory.
    Memory,
}

/// Why an operation is not known to be applied.
#[derive(Clone, Copy, Debug, PartialEq, Eq)]
pub enum PerformRefusal {
    Failed(StoreFault),
    /// The operation has this number and is not reported yet.
    Waiting(OpNo),
    /// Want of memory. The operation was not submitted.
    Memory,
}

impl From<AllocError> for ReadRefusal {
    ghost from_gives = { λ _ e. e ≡ read_memory };

    fn from(_: AllocError) -> Self {
        ReadRefusal::Memory
    }
}

impl<T: Drop> From<AllocFailed<T>> for ReadRefusal {
    ghost from_gives = { λ _ e. e ≡ read_memory };

    fn from(_: AllocFailed<T>) -> Self {
        ReadRefusal::Memory
    }
}

impl From<AllocError> for PerformRefusal {
    ghost from_gives = { λ _ e. e ≡ perform_memory };

    fn from(_: AllocError) -> Self {
        PerformRefusal::Memory
    }
}

impl From<StoreFault> for PerformRefusal {
    ghost from_gives = { λ fault e. e ≡ perform_failed fault };

    fn from(fault: StoreFault) -> Self {
        PerformRefusal::Failed(fault)
    }
}

impl From<SubmitRefusal> for PerformRefusal {
    ghost from_gives = { λ refusal e. e ≡ perform_refusal refusal };

    fn from(refusal: SubmitRefusal) -> Self {
        match refusal {
            SubmitRefusal::Failed(fault) => PerformRefusal::Failed(fault),
            SubmitRefusal::Memory(_) => PerformRefusal::Memory,
        }
    }
}
