//! What a plan is good for.

ghost use Rattle.std.specs.Prelude.{◌≡◌, ℕ, ◌≤◌, None};
ghost use Rattle.mj_maps.specs.Map.{Map};
ghost use Rattle.mj_tree.specs.declared.request.ClientRequest.{ClientRequest};
ghost use Rattle.mj_tree.specs.State.{new_state};
ghost use Rattle.mj_tree.specs.Answer.{after};
ghost use Rattle.mj_cells.specs.declared.cell.CellValue.{CellValue};
ghost use Rattle.mj_cells.specs.Cell.{key_cmp};
ghost use Rattle.mj_cells.specs.Table.{table_of, overlay};
ghost use Rattle.mj_event.specs.declared.Event.{Event};
ghost use Rattle.mj_event.specs.Writes.{writes_of};
ghost use Rattle.mj_judge.specs.Own.{own_damage};
ghost use Rattle.mj_cache.specs.Cached.{CacheValue, begun, projected, early_table, early_tree};
ghost use Rattle.mj_delta.specs.Fresh.{fresh_table};
ghost use Rattle.mj_delta.specs.Steps.{GivesTree};
ghost use Rattle.mj_cache.specs.HasTree.{HasTree};

/// The writes of a planned event may be projected. The cache has its tree then too, which is the plain tree after the request.
pub fn a_plan_is_projected()
    ensures undamaged { (c : CacheValue) (r : ClientRequest) (e : Event) → GivesTree c.rank (early_table c) (early_tree c) r e → own_damage c.rank (overlay (early_table c) (writes_of e)) ≡ None }
    ensures tree { (c : CacheValue) (r : ClientRequest) (e : Event) (ends : ℕ) → GivesTree c.rank (early_table c) (early_tree c) r e → HasTree (projected (writes_of e) ends c) }
    ensures after { (c : CacheValue) (r : ClientRequest) (e : Event) (ends : ℕ) → GivesTree c.rank (early_table c) (early_tree c) r e → early_tree (projected (writes_of e) ends c) ≡ after (early_tree c) r }
{}

/// The cells of a new rank make a cache, which has the tree of a new rank.
pub fn a_new_rank_is_cached()
    ensures undamaged { (rank : ℕ) (m : Map key_cmp CellValue) → rank ≤ 15 → table_of m ≡ fresh_table rank → own_damage rank (table_of m) ≡ None }
    ensures tree { (rank : ℕ) (m : Map key_cmp CellValue) → rank ≤ 15 → table_of m ≡ fresh_table rank → HasTree (begun rank m) }
    ensures state { (rank : ℕ) (m : Map key_cmp CellValue) → rank ≤ 15 → table_of m ≡ fresh_table rank → early_tree (begun rank m) ≡ new_state rank }
{}
