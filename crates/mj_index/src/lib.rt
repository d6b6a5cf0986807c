//! What is looked up in the tree of a table of cells, by an index that follows groups of writes.
#![tactic(auto)]

mod change;
mod following;
mod group;
mod index;
mod known;
mod said;
mod turn;
mod views;
mod whole;

pub use group::project;
pub use index::{Index, Sums};
pub use known::{FullPlace, Known, KnownInodes};
pub use whole::index_of;
