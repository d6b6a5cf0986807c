//! What an image of the store recovers to, by definitions alone.
#![tactic(auto)]

mod inos;
mod journal;
mod laws;

pub use inos::{ROOT, first_ino, stray_ino};
pub use journal::{Entries, LiveEvent, LiveJournal};
pub use laws::{
    formatted_store_begins, last_write_counts, one_recovery, one_tree_per_table,
    probed_end_is_least, reachable_are_listed,
};
