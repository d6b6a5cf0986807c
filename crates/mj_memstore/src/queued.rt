// An operation that waits.

use crate::room::Room;
use mj_base::OpNo;
use mj_store::ObjectAct;

/// An operation, with the memory that its object may need to take it.
#[derive(Drop)]
pub struct Queued {
    pub op: OpNo,
    pub act: ObjectAct,
    pub room: Room,
}
