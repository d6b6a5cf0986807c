//! What keeps the facts of a mount, from a stop until its rank serves.

ghost use Rattle.std.specs.Prelude.{◌≡◌, ◌⊎◌, ℕ, ◌≤◌, true, List, [], ◌∷◌, drop, length};
ghost use Rattle.mj_base.specs.declared.object.ObjectName.{ObjectName};
ghost use Rattle.mj_store.specs.declared.act.ObjectOp.{ObjectOp};
ghost use Rattle.mj_store.specs.declared.answer.Ack.{Ack};
ghost use Rattle.mj_store.specs.Object.{Contents};
ghost use Rattle.mj_store.specs.State.{StoreState, Quiet, contents, submitted, tried, failed, reported, at_rest};
ghost use Rattle.mj_store.specs.Causes.{In};
ghost use Rattle.mj_store.specs.Moves.{fronts_applied};
ghost use Rattle.mj_layout.specs.Striping.{IsStriping};
ghost use Rattle.mj_layout.specs.Cutting.{IsCut};
ghost use Rattle.mj_layout.specs.declared.Header.{Header};
ghost use Rattle.mj_recovery.specs.Stream.{journal_object};
ghost use Rattle.mj_facts.specs.Elsewhere.{IsElsewhere};
ghost use Rattle.mj_facts.specs.Journalled.{Journalled, IsJournalled, taken};
ghost use Rattle.mj_facts.specs.Headers.{HeadSent};
ghost use Rattle.mj_facts.specs.Ranks.{Cutting, Mount, tail_of};
ghost use Rattle.mj_facts.specs.Serves.{Serves};
ghost use Rattle.mj_facts.specs.Rests.{Rests};
ghost use Rattle.mj_facts.specs.Mounts.{Mounts, MountInOrder, begun, serving};
ghost use Rattle.mj_facts.specs.Calls.{header_op, MaySendHeader, IsSettled, mount_headed, mount_settled, cut_op, cutting, cut_done, IsShort, passed, IsNear};

/// A mount begins on whatever rests, with the events that are read from it. A store in which nothing is pending is at rest.
pub fn a_mount_begins()
    ensures journalled { (j : Journalled) (count : ℕ) → IsJournalled j → IsJournalled (taken count j) }
    ensures begins { (j : Journalled) (count : ℕ) (image : Contents) (s : StoreState) → IsJournalled j → (r : Rests j count image) →
        Mounts (begun (taken count j) image r.header) (at_rest image s) }
    ensures quiet { (k : Mount) (s : StoreState) → Quiet s → Mounts k (at_rest (contents s) s) → Mounts k s }
{}

/// The facts hold after each event of the store, after each operation that the mount submits, and after an object was found to
/// need no truncation.
pub fn a_mount_goes_on()
    ensures tried { (k : Mount) (s : StoreState) (name : ObjectName) → Mounts k s → Mounts k (tried name s) }
    ensures fronts { (k : Mount) (names : List ObjectName) (s : StoreState) → Mounts k s → Mounts k (fronts_applied names s) }
    ensures not_done { (k : Mount) (s : StoreState) (name : ObjectName) → Mounts k s → Mounts k (failed name s) }
    ensures told { (k : Mount) (s : StoreState) → Mounts k s → Mounts k (reported s) }
    ensures header { (k : Mount) (s : StoreState) (op : ℕ) (h : Header) → Mounts k s → s.next ≤ op →
        MaySendHeader k.journal (length k.journal.events) k.stood k.heads h →
        Mounts (mount_headed op h k) (submitted (header_op k.journal.rank h) op s) }
    ensures header_done { (k : Mount) (s : StoreState) (a : Ack) (stood : Header) (after : List HeadSent) → Mounts k s →
        s.completed ≡ a ∷ drop 1 s.completed → a.done ≡ true → IsSettled a.op k.heads stood after → Mounts (mount_settled stood after k) (reported s) }
    ensures truncation { (k : Mount) (s : StoreState) (op index len : ℕ) → Mounts k s → s.next ≤ op → 1 ≤ index →
        IsCut k.journal.layout index (tail_of k) len → Mounts (cutting op index k) (submitted (cut_op k.journal.rank index len) op s) }
    ensures truncation_done { (k : Mount) (s : StoreState) (a : Ack) (out : List Cutting) → Mounts k s →
        s.completed ≡ a ∷ drop 1 s.completed → a.done ≡ true → ((c : Cutting) → In c k.out → In c out ⊎ (c.op ≡ a.op)) →
        Mounts (cut_done out k) (reported s) }
    ensures passed { (k : Mount) (s : StoreState) (index : ℕ) → Mounts k s → 1 ≤ index →
        IsShort k index (s.objects (journal_object k.journal.rank index)).held → Mounts (passed index k) s }
    ensures elsewhere { (k : Mount) (s : StoreState) (op : ObjectOp) (number : ℕ) → Mounts k s → s.next ≤ number →
        IsElsewhere k.journal.rank op.name → Mounts k (submitted op number s) }
{}

/// Once every object near the tail was seen to, and every truncation is acknowledged, the rank may serve.
pub fn a_mount_in_order_serves()
    ensures serves { (k : Mount) (s : StoreState) → Mounts k s → MountInOrder k → Serves (serving k) s }
    ensures in_order { (k : Mount) → IsStriping k.journal.layout → k.out ≡ [] → ((index : ℕ) → IsNear k index → In index k.cut) → MountInOrder k }
{}
