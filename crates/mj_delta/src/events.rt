//! The event of each request that changes the tree is the exact one.

ghost use Rattle.std.specs.Prelude.{◌≡◌, ℕ, Some, is_some};
ghost use Rattle.mj_tree.specs.declared.request.ClientRequest.{ClientRequest};
ghost use Rattle.mj_tree.specs.State.{PlainState};
ghost use Rattle.mj_tree.specs.Answer.{decision, changes};
ghost use Rattle.mj_cells.specs.Table.{Table};
ghost use Rattle.mj_entry.specs.Entry.{IsPayload};
ghost use Rattle.mj_event.specs.declared.Event.{Event};
ghost use Rattle.mj_event.specs.Event.{event_bytes};
ghost use Rattle.mj_machine.specs.Delta.{IsExactDelta};
ghost use Rattle.mj_delta.specs.TreeOf.{IsTreeOf};
ghost use Rattle.mj_delta.specs.Fits.{IsSent};
ghost use Rattle.mj_delta.specs.EventFor.{event_for};
ghost use Rattle.mj_delta.specs.Steps.{GivesTree};

/// A request has an event exactly where it changes the tree. The event gives the tree after the request, and writes just the cells
/// that change, with the heads of the directories whose dentries do. It fits one entry of the journal.
pub fn event_is_exact()
    ensures there { (rank : ℕ) (t : Table) (s : PlainState) (r : ClientRequest) → is_some (event_for rank t s r (decision s r)) ≡ changes s r }
    ensures tree { (rank : ℕ) (t : Table) (s : PlainState) (r : ClientRequest) (e : Event) → IsTreeOf rank t s → IsSent r → event_for rank t s r (decision s r) ≡ Some e → GivesTree rank t s r e }
    ensures exact { (rank : ℕ) (t : Table) (s : PlainState) (r : ClientRequest) (e : Event) → IsTreeOf rank t s → IsSent r → event_for rank t s r (decision s r) ≡ Some e → IsExactDelta rank t r e }
    ensures fits { (rank : ℕ) (t : Table) (s : PlainState) (r : ClientRequest) (e : Event) → IsTreeOf rank t s → IsSent r → event_for rank t s r (decision s r) ≡ Some e → IsPayload (event_bytes e) }
{}
