//! What the definitions mean.

ghost use Rattle.std.specs.Prelude.{◌≡◌, ◌↔◌, IsTrue, ℕ, ◌^◌, ◌≤◌, List};
ghost use Rattle.mj_maps.specs.Map.{get};
ghost use Rattle.mj_store.specs.Object.{Contents};
ghost use Rattle.mj_layout.specs.Striping.{Striping, IsStriping};
ghost use Rattle.mj_cells.specs.declared.cell.CellKey.{CellKey};
ghost use Rattle.mj_recovery.specs.declared.journal.LiveEvent.{LiveEvent};
ghost use Rattle.mj_recovery.specs.Stream.{IsEnd, probed_end};
ghost use Rattle.mj_recovery.specs.Objects.{Objects, Holds, AreHeld, objects_of};
ghost use Rattle.mj_recovery.specs.Journal.{journal_writes};
ghost use Rattle.mj_recovery.specs.Stored.{stored_cell};
ghost use Rattle.mj_recovery.specs.Recovered.{Recovery, RecoversTo, merged_table};
ghost use Rattle.mj_recovery.specs.Orderly.{HasRecoveredTree};
ghost use Rattle.mj_recovery.specs.Formatted.{formatted_objects, formatted_recovery};
ghost use Rattle.mj_cells.specs.Table.{Table, value_of, last_of};
ghost use Rattle.mj_recovery.specs.Tree.{IsReachable, is_among, reachable};

/// The probed end is the least position without a byte, and no other position is.
pub fn probed_end_is_least()
    ensures is { (image : Contents) (rank : ℕ) (layout : Striping) (x : ℕ) → x ≤ 2 ^ 62 → IsEnd image rank layout x (probed_end image rank layout x) }
    ensures only { (image : Contents) (rank : ℕ) (layout : Striping) (x end : ℕ) → x ≤ 2 ^ 62 → IsEnd image rank layout x end → end ≡ probed_end image rank layout x }
{}

/// The merged table has at each key the last write of the journal, and else what is stored.
pub fn last_write_counts()
    ensures { (rank : ℕ) (m : Objects) (events : List LiveEvent) (k : CellKey) → value_of (merged_table rank m events) k ≡ last_of k (journal_writes events) (stored_cell (get m) rank k) }
{}

/// An image recovers to one thing at most.
pub fn one_recovery()
    ensures { (rank : ℕ) (image : Contents) (r s : Recovery) → RecoversTo rank image r → RecoversTo rank image s → r ≡ s }
{}

/// A formatted store recovers to the tree of a new rank, and a script may begin with it.
pub fn formatted_store_begins()
    ensures objects { (rank : ℕ) (layout : Striping) → rank ≤ 15 → IsStriping layout → AreHeld (formatted_objects rank layout) }
    ensures tree { (rank : ℕ) (layout : Striping) (image : Contents) → rank ≤ 15 → IsStriping layout → Holds image (objects_of (formatted_objects rank layout)) → HasRecoveredTree rank image (formatted_recovery rank layout) }
{}

/// A table has one tree: images that recover to the same table recover to the same tree.
pub fn one_tree_per_table()
    ensures { (rank : ℕ) (a b : Contents) (r s : Recovery) → RecoversTo rank a r → RecoversTo rank b s → r.table ≡ s.table → r.tree ≡ s.tree }
{}

/// The list of reachable directories holds those that can be reached, and no others.
pub fn reachable_are_listed()
    ensures { (t : Table) (d : ℕ) → IsReachable t d ↔ IsTrue (is_among (reachable t) d) }
{}
