//! Where the stream of a journal ends on a store, and the bytes of a range of it.
#![tactic(auto)]

mod look;
mod probe;
mod range;
mod refusal;

pub use probe::probe_end;
pub use range::read_range;
pub use refusal::RangeRefusal;
