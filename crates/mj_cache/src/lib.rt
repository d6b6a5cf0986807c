//! The cells of a rank: what is safe, what is not safe yet, and the tree that all of them make.
#![tactic(auto)]

mod cache;
mod fresh;
mod over_keys;
mod plain;
mod plain_parts;
mod ranges;
mod reads;
mod refusal;
mod tree;
mod view;

pub use cache::Cache;
pub use fresh::new_cells;
pub use mj_index::Sums;
pub use over_keys::{kept_tids, kept_tids_below};
pub use plain::plain_tree;
pub use reads::{dentry_at, full_place, head_of, record};
pub use refusal::CacheRefusal;
pub use tree::has_tree;
