//! The reply to a request over a cache of cells, and the event that journals it.
#![tactic(auto)]

mod dentry_plans;
mod events;
mod fulls;
mod laws;
mod lumps;
mod plan_lumps;
mod planned;
mod sending;
mod updates;

pub use events::event_of;
pub use laws::{a_new_rank_is_cached, a_plan_is_projected};
pub use mj_cache::new_cells;
pub use planned::{Planned, plan};
