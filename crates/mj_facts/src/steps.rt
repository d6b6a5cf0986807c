//! Steps one after another, with stops anywhere.

ghost use Rattle.mj_store.specs.Object.{Contents};
ghost use Rattle.mj_store.specs.State.{StoreState, IsImage};
ghost use Rattle.mj_facts.specs.Steps.{World, Holds, Steps, IsFrontOf, KeepsSafe};

/// Whatever steps were taken, stops and mounts included, the facts go on to hold, each image that a stop may then leave is read as
/// a front of the events that holds all that are safe, and no event that was safe before is lost or moved.
pub fn each_stop_leaves_a_front()
    ensures holds { (w : World) (s : StoreState) (v : World) (t : StoreState) → Steps w s v t → Holds w s → Holds v t }
    ensures leaves { (w : World) (s : StoreState) (v : World) (t : StoreState) (image : Contents) → Steps w s v t → Holds w s →
        IsImage t image → IsFrontOf v image }
    ensures keeps { (w : World) (s : StoreState) (v : World) (t : StoreState) → Steps w s v t → Holds w s → KeepsSafe w v }
{}
