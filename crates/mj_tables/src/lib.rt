//! Tables of cells with writes over them that are not safe yet.
#![tactic(auto)]

mod group;
mod layers;
mod listing;
mod moving;
mod room;
mod safe_cells;
mod settling;
mod slot;
mod there;

pub use group::Group;
pub use layers::Layers;
pub use safe_cells::SafeCells;
