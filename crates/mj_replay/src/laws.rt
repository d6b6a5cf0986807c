//! What a journal of a history is replayed to.

ghost use Rattle.std.specs.Prelude.{◌≡◌, ℕ, ◌≤◌, List, Ok};
ghost use Rattle.mj_layout.specs.Striping.{IsStriping, period};
ghost use Rattle.mj_tree.specs.State.{new_state};
ghost use Rattle.mj_tree.specs.Answer.{after_all};
ghost use Rattle.mj_cells.specs.Table.{overlay};
ghost use Rattle.mj_recovery.specs.declared.journal.LiveJournal.{LiveJournal};
ghost use Rattle.mj_delta.specs.Fresh.{fresh_table};
ghost use Rattle.mj_delta.specs.Histories.{Turn, events, requests, all_writes, Carries};
ghost use Rattle.mj_delta.specs.Recovering.{live_events};
ghost use Rattle.mj_replay.specs.Replayed.{replayed_of};

/// A journal of which nothing was expired, and whose events are those of a history of a new rank, comes to the tree after the
/// history's requests.
pub fn a_history_is_replayed()
    ensures { (rank : ℕ) (j : LiveJournal) (turns : List Turn) → rank ≤ 15 → IsStriping j.header.layout → j.header.expire ≡ period j.header.layout → Carries rank (fresh_table rank) (new_state rank) turns → live_events j ≡ events turns
        → replayed_of rank j ≡ Ok (record { journal = j; table = overlay (fresh_table rank) (all_writes turns); tree = after_all (new_state rank) (requests turns) }) }
{}
