//! What a rank keeps about its store, as facts over plain values: each event of the store keeps them, and whatever a stop leaves
//! recovers to a front of the journalled events that holds all that are safe. There is no code here but laws with an empty body.
#![tactic(auto)]

mod calls;
mod committed;
mod few_objects;
mod mounting;
mod serving;
mod steps;
mod stops;

pub use calls::{
    a_set_below_is_removed, a_write_goes_on, an_event_is_appended, an_expire_is_repeated,
    ends_follow_the_events, places_follow_the_events, what_is_done_is_safe,
};
pub use committed::{
    a_front_is_gathered, what_is_not_committed_is_stored, what_is_not_committed_stays,
};
pub use few_objects::few_objects_are_held;
pub use mounting::{a_mount_begins, a_mount_goes_on, a_mount_in_order_serves};
pub use serving::{a_rank_goes_on, a_rank_submits};
pub use steps::each_stop_leaves_a_front;
pub use stops::{
    a_formatted_store_rests, a_stop_leaves_a_front, a_stop_leaves_nothing_above,
    what_is_read_rests, what_rests_is_read,
};
