//! What the facts of a rank, of a mount and of a stopped store are good for.

ghost use Rattle.std.specs.Prelude.{ℕ};
ghost use Rattle.mj_store.specs.State.{StoreState};
ghost use Rattle.mj_tree.specs.State.{new_state};
ghost use Rattle.mj_machine.specs.Machine.{LogMachine};
ghost use Rattle.mj_journaler.specs.Journal.{Journal};
ghost use Rattle.mj_journaler.specs.Keeps.{MaySend};
ghost use Rattle.mj_journaler.specs.Calls.{offer_op, taken, acknowledged};
ghost use Rattle.mj_journaler.specs.declared.sent.Offer.TheVariants.{Flush};
ghost use Rattle.mj_rank.specs.Mounts.{MountValue};
ghost use Rattle.mj_rank.specs.Live.{Lives, Rested, Mounted, LeavesFronts};
ghost use Rattle.mj_store.specs.Object.{Contents};
ghost use Rattle.std.specs.Prelude.{◌≡◌, ◌<◌, ◌≤◌, ◌^◌, true, false, ◌∷◌, drop, Some};
ghost use Rattle.mj_base.specs.declared.object.ObjectName.{ObjectName};
ghost use Rattle.mj_layout.specs.Striping.{Striping, IsStriping};
ghost use Rattle.mj_recovery.specs.Objects.{Holds, objects_of};
ghost use Rattle.mj_recovery.specs.Formatted.{formatted_objects};
ghost use Rattle.mj_store.specs.State.{Quiet, IsImage, contents, submitted, tried, failed, reported, at_rest};
ghost use Rattle.mj_store.specs.declared.answer.Ack.{Ack};
ghost use Rattle.mj_tree.specs.declared.request.ClientRequest.{ClientRequest};
ghost use Rattle.mj_tree.specs.Answer.{changes};
ghost use Rattle.mj_entry.specs.Entry.{IsPayload};
ghost use Rattle.mj_cells.specs.Table.{Table, overlay};
ghost use Rattle.mj_recovery.specs.Tree.{tree_of};
ghost use Rattle.mj_event.specs.declared.Event.{Event};
ghost use Rattle.mj_event.specs.Event.{event_bytes};
ghost use Rattle.mj_event.specs.Writes.{writes_of};
ghost use Rattle.mj_machine.specs.Machine.{opened, accepted, made_safe, early_state};
ghost use Rattle.mj_delta.specs.Steps.{GivesTree};
ghost use Rattle.mj_rank.specs.Log.{entry_end, with_entry};
ghost use Rattle.mj_rank.specs.Mount.{subtree_map};

/// Every image that a store may hold recovers to the machine's state after a front of its requests that has all safe ones.
pub fn each_image_is_a_front()
    ensures serving { (rank : ℕ) (l : Journal) (cells : Table) (m : LogMachine) (s : StoreState) →
        Lives rank l cells m s → LeavesFronts rank m s }
    ensures stopped { (rank : ℕ) (m : LogMachine) (s : StoreState) → Rested rank m s → LeavesFronts rank m s }
    ensures mounting { (v : MountValue) (m : LogMachine) (s : StoreState) →
        Mounted v m s → LeavesFronts v.number m s }
{}

/// A mount keeps its facts through each event of the store, and a stop in the middle of it leaves a store at rest.
pub fn a_mount_lives_on()
    ensures tried { (v : MountValue) (m : LogMachine) (s : StoreState) (name : ObjectName) →
        Mounted v m s → Mounted v m (tried name s) }
    ensures not_done { (v : MountValue) (m : LogMachine) (s : StoreState) (name : ObjectName) →
        Mounted v m s → Mounted v m (failed name s) }
    ensures told { (v : MountValue) (m : LogMachine) (s : StoreState) →
        Mounted v m s → Mounted v m (reported s) }
    ensures stopped { (v : MountValue) (m : LogMachine) (s : StoreState) (image : Contents) →
        IsImage s image → Mounted v m s → Rested v.number m (at_rest image s) }
{}

/// A formatted store rests with nothing that was requested, under a new rank's machine.
pub fn a_new_store_rests()
    ensures { (rank : ℕ) (layout : Striping) (s : StoreState) → rank ≤ 15 → IsStriping layout → Quiet s →
        Holds (contents s) (objects_of (formatted_objects rank layout)) → Rested rank (opened (new_state rank)) s }
{}

/// A stopped store stays at rest, through whatever its calls do and through further stops.
pub fn a_stopped_store_stays()
    ensures tried { (rank : ℕ) (m : LogMachine) (s : StoreState) (name : ObjectName) → Rested rank m s → Rested rank m (tried name s) }
    ensures not_done { (rank : ℕ) (m : LogMachine) (s : StoreState) (name : ObjectName) → Rested rank m s → Rested rank m (failed name s) }
    ensures stopped { (rank : ℕ) (m : LogMachine) (s : StoreState) (image : Contents) → IsImage s image → Rested rank m s → Rested rank m (at_rest image s) }
{}

/// The facts hold after each event of the store, after a write is sent, and after one is acknowledged, when the machine makes
/// safe what ends at or below the log's safe position.
pub fn a_rank_lives_on()
    ensures tried { (rank : ℕ) (l : Journal) (cells : Table) (m : LogMachine) (s : StoreState) (name : ObjectName) →
        Lives rank l cells m s → Lives rank l cells m (tried name s) }
    ensures not_done { (rank : ℕ) (l : Journal) (cells : Table) (m : LogMachine) (s : StoreState) (name : ObjectName) →
        Lives rank l cells m s → Lives rank l cells m (failed name s) }
    ensures told { (rank : ℕ) (l : Journal) (cells : Table) (m : LogMachine) (s : StoreState) →
        Lives rank l cells m s → Lives rank l cells m (reported s) }
    ensures write { (rank : ℕ) (l : Journal) (cells : Table) (m : LogMachine) (s : StoreState) (op to : ℕ) → s.next ≤ op →
        MaySend l (Some (Flush to)) → Lives rank l cells m s → Lives rank (taken op (Flush to) l) cells m (submitted (offer_op l (Flush to)) op s) }
    ensures write_done { (rank : ℕ) (l : Journal) (cells : Table) (m : LogMachine) (s : StoreState) (a : Ack) →
        s.completed ≡ a ∷ drop 1 s.completed → a.done ≡ true → Lives rank l cells m s →
        Lives rank (acknowledged a.op l) cells (made_safe m (acknowledged a.op l).safe) (reported s) }
{}

/// They hold after a request, which the machine accepts with the end of its entry, and after a map that begins a segment.
pub fn a_rank_answers()
    ensures same { (rank : ℕ) (l : Journal) (cells : Table) (m : LogMachine) (s : StoreState) (r : ClientRequest) (ends : ℕ) →
        changes (tree_of rank cells) r ≡ false → Lives rank l cells m s → Lives rank l cells (accepted m r ends) s }
    ensures changed { (rank : ℕ) (l : Journal) (cells : Table) (m : LogMachine) (s : StoreState) (r : ClientRequest) (e : Event) →
        Lives rank l cells m s → changes (tree_of rank cells) r ≡ true → GivesTree rank cells (tree_of rank cells) r e → IsPayload (event_bytes e) → entry_end l (event_bytes e) < 2 ^ 62 →
        Lives rank (with_entry l (event_bytes e)) (overlay cells (writes_of e)) (accepted m r (entry_end l (event_bytes e))) s }
    ensures segment { (rank : ℕ) (l : Journal) (cells : Table) (m : LogMachine) (s : StoreState) →
        Lives rank l cells m s → entry_end l (event_bytes (subtree_map rank)) < 2 ^ 62 → Lives rank (with_entry l (event_bytes (subtree_map rank))) cells m s }
    ensures tree { (rank : ℕ) (l : Journal) (cells : Table) (m : LogMachine) (s : StoreState) → Lives rank l cells m s → tree_of rank cells ≡ early_state m }
{}
