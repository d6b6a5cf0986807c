//! Writes that become safe together.

use mj_base::Items;
use mj_cells::CellWrite;

/// Writes of one event, which ends at this position.
#[derive(Drop)]
pub struct Group {
    pub ends: u64,
    pub writes: Items<CellWrite>,
}
