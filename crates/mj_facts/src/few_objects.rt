//! A store holds few objects, so each of its images is a finite map, as recovery reads it.

ghost use Rattle.std.specs.Prelude.{◌≡◌, ℕ, List, ◌∷◌, None};
ghost use Rattle.mj_base.specs.declared.object.ObjectName.{ObjectName};
ghost use Rattle.mj_store.specs.declared.act.ObjectOp.{ObjectOp};
ghost use Rattle.mj_store.specs.Object.{Contents};
ghost use Rattle.mj_store.specs.State.{StoreState, Quiet, IsImage, contents, submitted, tried, failed, reported, at_rest};
ghost use Rattle.mj_store.specs.Causes.{In};
ghost use Rattle.mj_recovery.specs.Objects.{Holds};
ghost use Rattle.mj_facts.specs.Few.{HoldsOnly, objects_among};

/// All objects but some are absent, with nothing pending: each event keeps that, and an operation adds its own object.
pub fn few_objects_are_held()
    ensures begins { (names : List ObjectName) (image : Contents) (s : StoreState) →
        ((name : ObjectName) → (In name names → ⊥) → image name ≡ None) → HoldsOnly names (at_rest image s) }
    ensures quiet { (names : List ObjectName) (s : StoreState) → Quiet s → HoldsOnly names (at_rest (contents s) s) → HoldsOnly names s }
    ensures tried { (names : List ObjectName) (s : StoreState) (name : ObjectName) → HoldsOnly names s → HoldsOnly names (tried name s) }
    ensures not_done { (names : List ObjectName) (s : StoreState) (name : ObjectName) → HoldsOnly names s → HoldsOnly names (failed name s) }
    ensures told { (names : List ObjectName) (s : StoreState) → HoldsOnly names s → HoldsOnly names (reported s) }
    ensures submitted { (names : List ObjectName) (s : StoreState) (op : ObjectOp) (number : ℕ) → HoldsOnly names s →
        HoldsOnly (op.name ∷ names) (submitted op number s) }
    ensures image { (names : List ObjectName) (s : StoreState) (image : Contents) → HoldsOnly names s → IsImage s image →
        Holds image (objects_among image names) }
{}
