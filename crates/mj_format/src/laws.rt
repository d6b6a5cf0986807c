//! What a formatted store is good for.

ghost use Rattle.std.specs.Prelude.{◌≡◌, ℕ, ◌≤◌, Some, None, option_map, Err};
ghost use Rattle.mj_base.specs.declared.object.ObjectName.{ObjectName};
ghost use Rattle.mj_base.specs.declared.damage.Damage.TheVariants as damage;
ghost use Rattle.mj_store.specs.Object.{Contents};
ghost use Rattle.mj_store.specs.declared.held.HeldObject.{HeldObject};
ghost use Rattle.mj_layout.specs.Striping.{Striping, IsStriping};
ghost use Rattle.mj_recovery.specs.Objects.{Objects, Holds, content_of, objects_of};
ghost use Rattle.mj_recovery.specs.Listed.{found};
ghost use Rattle.mj_recovery.specs.Recovered.{recovered};
ghost use Rattle.mj_recovery.specs.Orderly.{HasRecoveredTree};
ghost use Rattle.mj_recovery.specs.Formatted.{formatted_objects, formatted_recovery};
ghost use Rattle.mj_format.specs.Formatting.{IsFormattedOver, LacksHeader};

/// An object that was absent is made just as it is listed. An empty store that was formatted holds what is listed and
/// nothing else, and recovers to the tree of a new rank. One that lacks its header recovers to nothing but that damage.
pub fn a_formatted_store_is_new()
    ensures made { (rank : ℕ) (layout : Striping) (before image : Contents) (name : ObjectName) (object : HeldObject) →
        IsFormattedOver rank layout before image → found name (formatted_objects rank layout) ≡ Some object → before name ≡ None →
        image name ≡ Some (content_of object) }
    ensures holds { (rank : ℕ) (layout : Striping) (before image : Contents) →
        ((name : ObjectName) → before name ≡ None) → IsFormattedOver rank layout before image →
        Holds image (objects_of (formatted_objects rank layout)) }
    ensures tree { (rank : ℕ) (layout : Striping) (before image : Contents) → rank ≤ 15 → IsStriping layout →
        ((name : ObjectName) → before name ≡ None) → IsFormattedOver rank layout before image →
        HasRecoveredTree rank image (formatted_recovery rank layout) }
    ensures lacks { (rank : ℕ) (image : Contents) (objects : Objects) →
        Holds image objects → LacksHeader rank image → recovered rank objects ≡ Err damage.HeaderMissing }
{}
