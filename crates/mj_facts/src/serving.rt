//! What keeps the facts of a rank that serves.

ghost use Rattle.std.specs.Prelude.{◌≡◌, ℕ, ◌≤◌, true, List, ◌∷◌, drop};
ghost use Rattle.mj_base.specs.declared.object.ObjectName.{ObjectName};
ghost use Rattle.mj_store.specs.declared.act.ObjectOp.{ObjectOp};
ghost use Rattle.mj_store.specs.declared.answer.Ack.{Ack};
ghost use Rattle.mj_store.specs.State.{StoreState, submitted, tried, failed, reported};
ghost use Rattle.mj_store.specs.Moves.{fronts_applied};
ghost use Rattle.mj_layout.specs.declared.Header.{Header};
ghost use Rattle.mj_event.specs.declared.Event.{Event};
ghost use Rattle.mj_facts.specs.Elsewhere.{IsElsewhere};
ghost use Rattle.mj_facts.specs.Headers.{HeadSent};
ghost use Rattle.mj_facts.specs.Ranks.{Sent, Rank};
ghost use Rattle.mj_facts.specs.Serves.{Serves};
ghost use Rattle.mj_facts.specs.Calls.{appended, MayAppend, write_op, flushed_to, MayWrite, made_safe, MayMakeSafe, header_op, MaySendHeader, IsSettled, rank_headed, rank_settled, remove_op, MayRemove};

/// The facts hold after each event of the store that submits nothing, after an acknowledgement, and after events were appended.
pub fn a_rank_goes_on()
    ensures tried { (r : Rank) (s : StoreState) (name : ObjectName) → Serves r s → Serves r (tried name s) }
    ensures fronts { (r : Rank) (names : List ObjectName) (s : StoreState) → Serves r s → Serves r (fronts_applied names s) }
    ensures not_done { (r : Rank) (s : StoreState) (name : ObjectName) → Serves r s → Serves r (failed name s) }
    ensures told { (r : Rank) (s : StoreState) → Serves r s → Serves r (reported s) }
    ensures write_done { (r : Rank) (s : StoreState) (a : Ack) (count : ℕ) (sent : List Sent) → Serves r s →
        s.completed ≡ a ∷ drop 1 s.completed → a.done ≡ true → MayMakeSafe r a.op count sent → Serves (made_safe count sent r) (reported s) }
    ensures header_done { (r : Rank) (s : StoreState) (a : Ack) (stood : Header) (after : List HeadSent) → Serves r s →
        s.completed ≡ a ∷ drop 1 s.completed → a.done ≡ true → IsSettled a.op r.heads stood after → Serves (rank_settled stood after r) (reported s) }
    ensures appended { (r : Rank) (s : StoreState) (more : List Event) (want : ℕ → ℕ) → Serves r s → MayAppend r more want →
        Serves (appended more want r) s }
{}

/// The facts hold after each operation that the rank submits, as soon as it is submitted.
pub fn a_rank_submits()
    ensures write { (r : Rank) (s : StoreState) (op to : ℕ) (bytes : List ℕ) → Serves r s → s.next ≤ op → MayWrite r to bytes →
        Serves (flushed_to op to r) (submitted (write_op r bytes) op s) }
    ensures header { (r : Rank) (s : StoreState) (op : ℕ) (h : Header) → Serves r s → s.next ≤ op →
        MaySendHeader r.journal r.count r.stood r.heads h → Serves (rank_headed op h r) (submitted (header_op r.journal.rank h) op s) }
    ensures removal { (r : Rank) (s : StoreState) (op index : ℕ) → Serves r s → s.next ≤ op → MayRemove r index →
        Serves r (submitted (remove_op r.journal.rank index) op s) }
    ensures elsewhere { (r : Rank) (s : StoreState) (op : ObjectOp) (number : ℕ) → Serves r s → s.next ≤ number →
        IsElsewhere r.journal.rank op.name → Serves r (submitted op number s) }
{}
