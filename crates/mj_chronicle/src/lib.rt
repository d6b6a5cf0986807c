//! The chronicle of a mount: every request that it answered, in order, with what is asked of it often kept beside.
#![tactic(auto)]

mod chronicle;
mod ends;
mod law;
mod weight;

pub use chronicle::{Chronicle, MOST_ENTRIES, MOST_WEIGHT};
pub use law::{an_entry_with_an_end_is_the_last, an_entry_without_an_end_changes_none};
pub use weight::less_weight;
