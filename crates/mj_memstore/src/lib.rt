//! An object store in memory. It tells everything, and fails the calls that it is told to.
#![tactic(auto)]

mod apply;
mod bytes;
mod held;
mod making;
mod memory;
mod objects;
mod pairs;
mod queued;
mod read;
mod room;
mod store;
mod submit;

pub use memory::MemStore;
pub use mj_store::HeldObject;
