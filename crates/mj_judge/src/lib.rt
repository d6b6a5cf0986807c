//! Whether cells have a tree: their reachable directories, and the first damage that recovery names of them.
#![tactic(auto)]

mod counts;
mod damage;
mod dentries;
mod judge;
mod kinds;
mod lowest;
mod opened;
mod parts;
mod range;
mod reach;
mod rows;
mod stray;

pub use counts::Counts;
pub use damage::{own_damage, tree_damage};
pub use dentries::{full_in, is_dir, is_held};
pub use judge::{entry_counts, kept_inodes, link_counts, open_counts};
pub use lowest::least;
pub use parts::{dir_of, ino_in, kept_replies, next_ino, opens, sessions, subdir_in};
pub use reach::reachable;
