//! What it is for a table to have a plain tree.

ghost use Rattle.std.specs.Prelude.{◌≡◌, ℕ, ◌≤◌, List, [], None, Ok};
ghost use Rattle.std.specs.List.{AllByRecursion};
ghost use Rattle.mj_maps.specs.Map.{get};
ghost use Rattle.mj_layout.specs.Striping.{Striping, IsStriping};
ghost use Rattle.mj_tree.specs.State.{PlainState, new_state};
ghost use Rattle.mj_cells.specs.Table.{Table};
ghost use Rattle.mj_event.specs.Event.{IsEvent};
ghost use Rattle.mj_recovery.specs.declared.journal.LiveEvent.{LiveEvent};
ghost use Rattle.mj_recovery.specs.Objects.{Objects, objects_of};
ghost use Rattle.mj_recovery.specs.Tree.{tree_of};
ghost use Rattle.mj_recovery.specs.Damage.{tree_damage, cell_dirs};
ghost use Rattle.mj_recovery.specs.Orderly.{IsOwn, EachStored, IsOrderly};
ghost use Rattle.mj_recovery.specs.Recovered.{Recovery, merged_table, recovered};
ghost use Rattle.mj_recovery.specs.Formatted.{formatted_objects};
ghost use Rattle.mj_delta.specs.TreeOf.{IsTreeOf};
ghost use Rattle.mj_delta.specs.Cells.{HasSpelling, HasOwnCells, IsSpelled, HoldsOwnDirs};
ghost use Rattle.mj_delta.specs.Fresh.{fresh_table};

/// A table has at most one tree.
pub fn one_tree()
    ensures { (rank : ℕ) (t : Table) (a b : PlainState) → IsTreeOf rank t a → IsTreeOf rank t b → a ≡ b }
{}

/// It is the tree that recovery computes of the table.
pub fn tree_is_computed()
    ensures { (rank : ℕ) (t : Table) (s : PlainState) → IsTreeOf rank t s → tree_of rank t ≡ s }
{}

/// A table with a tree has no damage, where each directory of a lump is the root, stray, or one that the rank has given; and
/// such are the directories of all its cells.
pub fn tree_is_sound()
    ensures undamaged { (rank : ℕ) (t : Table) (s : PlainState) (lumps : List ℕ) → IsTreeOf rank t s → AllByRecursion (IsOwn rank s.next) lumps → tree_damage rank t lumps ≡ None }
    ensures cells { (rank : ℕ) (t : Table) (s : PlainState) → IsTreeOf rank t s → AllByRecursion (IsOwn rank s.next) (cell_dirs t) }
{}

/// A table without damage has a tree, where its cells are such as the rank would write.
pub fn undamaged_has_tree()
    ensures { (rank : ℕ) (t : Table) (lumps : List ℕ) → tree_damage rank t lumps ≡ None → HasOwnCells rank t → IsTreeOf rank t (tree_of rank t) }
{}

/// A table without damage has a tree, where each directory with a cell counts as one of a lump, and each cell has a spelling.
pub fn spelled_has_tree()
    ensures { (rank : ℕ) (t : Table) → tree_damage rank t (cell_dirs t) ≡ None → HasSpelling t → IsTreeOf rank t (tree_of rank t) }
{}

/// An orderly image that recovers has the tree that it recovers to: its live events are in the grammar, what its objects store has a
/// spelling, and no object of a directory that is not of the rank holds a cell.
pub fn image_has_tree()
    ensures { (rank : ℕ) (m : Objects) (r : Recovery) → recovered rank m ≡ Ok r → IsOrderly rank (get m) r.journal.events r.tree.next → AllByRecursion (λ (e : LiveEvent). IsEvent e.event) r.journal.events → EachStored (get m) IsSpelled → HoldsOwnDirs rank (get m) → IsTreeOf rank r.table r.tree }
{}

/// A formatted store holds the table of a new rank, and its tree is the empty one.
pub fn new_rank_has_tree()
    ensures tree { (rank : ℕ) → rank ≤ 15 → IsTreeOf rank (fresh_table rank) (new_state rank) }
    ensures formatted { (rank : ℕ) (layout : Striping) → rank ≤ 15 → IsStriping layout → merged_table rank (objects_of (formatted_objects rank layout)) [] ≡ fresh_table rank }
{}
