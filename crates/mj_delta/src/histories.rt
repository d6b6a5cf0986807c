//! Histories: what each front of them leaves, and what an image with one recovers to.

ghost use Rattle.std.specs.Prelude.{◌≡◌, ℕ, ◌≤◌, List, ◌++◌, None, Ok};
ghost use Rattle.std.specs.List.{AllByRecursion};
ghost use Rattle.mj_layout.specs.Striping.{Striping, IsStriping};
ghost use Rattle.mj_tree.specs.State.{PlainState, new_state};
ghost use Rattle.mj_tree.specs.Answer.{after_all};
ghost use Rattle.mj_cells.specs.Table.{Table, overlay};
ghost use Rattle.mj_recovery.specs.declared.journal.LiveJournal.{LiveJournal};
ghost use Rattle.mj_recovery.specs.Objects.{Objects};
ghost use Rattle.mj_recovery.specs.Damage.{tree_damage, lump_dirs};
ghost use Rattle.mj_recovery.specs.Orderly.{IsOwn};
ghost use Rattle.mj_recovery.specs.Recovered.{merged_table, recovered};
ghost use Rattle.mj_delta.specs.TreeOf.{IsTreeOf};
ghost use Rattle.mj_delta.specs.Fresh.{fresh_table};
ghost use Rattle.mj_delta.specs.Steps.{IsOrderlyWrite};
ghost use Rattle.mj_delta.specs.Histories.{Turn, requests, all_writes, Carries};
ghost use Rattle.mj_delta.specs.Recovering.{HoldsHistory, HoldsFirst};

/// With what a front of a history writes, the table has the tree after the front's requests.
pub fn front_has_tree()
    ensures { (rank : ℕ) (t : Table) (s : PlainState) (front rest : List Turn) → IsTreeOf rank t s → Carries rank t s (front ++ rest) → IsTreeOf rank (overlay t (all_writes front)) (after_all s (requests front)) }
{}

/// It has no damage either, with the lumps of all events from any place on: their directories are the rank's own. Each write is
/// one that the rank would do.
pub fn front_is_undamaged()
    ensures undamaged { (rank : ℕ) (t : Table) (s : PlainState) (older live : List Turn) → IsTreeOf rank t s → Carries rank t s (older ++ live) → tree_damage rank (overlay t (all_writes (older ++ live))) (lump_dirs (all_writes live)) ≡ None }
    ensures own { (rank : ℕ) (t : Table) (s : PlainState) (older live : List Turn) → Carries rank t s (older ++ live) → AllByRecursion (IsOwn rank (after_all s (requests (older ++ live))).next) (lump_dirs (all_writes live)) }
    ensures orderly { (rank : ℕ) (t : Table) (s : PlainState) (turns : List Turn) → Carries rank t s turns → AllByRecursion (IsOrderlyWrite rank) (all_writes turns) }
{}

/// A front of a history is a history, and so is the rest from where the front ends; and two such make one.
pub fn history_is_parted()
    ensures front { (rank : ℕ) (t : Table) (s : PlainState) (front rest : List Turn) → Carries rank t s (front ++ rest) → Carries rank t s front }
    ensures rest { (rank : ℕ) (t : Table) (s : PlainState) (front rest : List Turn) → Carries rank t s (front ++ rest) → Carries rank (overlay t (all_writes front)) (after_all s (requests front)) rest }
    ensures joined { (rank : ℕ) (t : Table) (s : PlainState) (front rest : List Turn) → Carries rank t s front → Carries rank (overlay t (all_writes front)) (after_all s (requests front)) rest → Carries rank t s (front ++ rest) }
{}

/// An image whose journal has the last turns of a history recovers to the tree after its requests, where the merged table is what
/// the whole history makes; so does one whose directories' objects and tables
/// are as in a formatted store, and whose journal has a history from a new rank's table on.
pub fn history_recovers()
    ensures merged { (rank : ℕ) (m : Objects) (j : LiveJournal) (t : Table) (s : PlainState) (older live : List Turn) → IsTreeOf rank t s → Carries rank t s (older ++ live) → HoldsHistory rank m j t older live
        → recovered rank m ≡ Ok (record { journal = j; table = merged_table rank m j.events; tree = after_all s (requests (older ++ live)) }) }
    ensures first { (rank : ℕ) (layout : Striping) (m : Objects) (j : LiveJournal) (live : List Turn) → rank ≤ 15 → IsStriping layout → Carries rank (fresh_table rank) (new_state rank) live → HoldsFirst rank layout m j live
        → recovered rank m ≡ Ok (record { journal = j; table = merged_table rank m j.events; tree = after_all (new_state rank) (requests live) }) }
{}
