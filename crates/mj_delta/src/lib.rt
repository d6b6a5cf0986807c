//! The plain tree that a table of cells stands for, and that the event of a request takes both to what they are after it.
#![tactic(auto)]

mod events;
mod histories;
mod laws;
mod steps;

pub use events::event_is_exact;
pub use histories::{front_has_tree, front_is_undamaged, history_is_parted, history_recovers};
pub use laws::{
    new_rank_has_tree, one_tree, spelled_has_tree, tree_is_computed, tree_is_sound,
    undamaged_has_tree,
};
pub use steps::{
    attributes_change, file_closes, file_opens, inode_begins, link_begins, link_ends, name_moves,
    name_replaces, name_stays, session_begins, session_ends,
};
