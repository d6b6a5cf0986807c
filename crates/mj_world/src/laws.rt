//! What the steps of a world come to, one after another.

ghost use Rattle.mj_world.specs.Waits.{WaitsOnce};

use mj_store::ObjectStore;

/// A mount over a store that tells its state waits but once for what it has sent, if the object of that is stepped then.
pub fn a_mount_waits_once<S: ObjectStore>()
    ensures { WaitsOnce S.state S.faults S.unreported }
{}
