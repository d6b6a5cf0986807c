// Memory that comes with an operation, for what its object may need to take it.

use mj_store::Pair;

/// Empty lists, with the capacities that an operation needs.
#[derive(Drop)]
pub struct Room {
    pub bytes: Vec<u8>,
    pub pairs: Vec<Pair>,
}
