//! What is stored as long as nothing is committed.

ghost use Rattle.std.specs.Prelude.{◌≡◌, ℕ, ◌≤◌, Option, Some, List};
ghost use Rattle.mj_base.specs.declared.object.ObjectName.{ObjectName};
ghost use Rattle.mj_base.specs.declared.object.ObjectName.TheVariants.{File};
ghost use Rattle.mj_store.specs.declared.act.ObjectAct.{ObjectAct};
ghost use Rattle.mj_store.specs.Object.{Contents, Pairs};
ghost use Rattle.mj_store.specs.State.{StoreState, Quiet, IsImage, contents, submitted, tried, failed, reported, at_rest};
ghost use Rattle.mj_layout.specs.declared.Header.{Header};
ghost use Rattle.mj_cells.specs.declared.cell.CellKey.{CellKey};
ghost use Rattle.mj_recovery.specs.Stream.{journal_object};
ghost use Rattle.mj_recovery.specs.Stored.{stored_cell};
ghost use Rattle.mj_recovery.specs.Objects.{Objects, Holds};
ghost use Rattle.mj_recovery.specs.Recovered.{stored_table};
ghost use Rattle.mj_facts.specs.Journalled.{Journalled};
ghost use Rattle.mj_facts.specs.Rests.{IsFront};
ghost use Rattle.mj_facts.specs.Few.{HoldsOnly};
ghost use Rattle.mj_facts.specs.Gathered.{IsGathered};
ghost use Rattle.mj_facts.specs.Elsewhere.{IsElsewhere, keys_of, NothingCommitted};
ghost use Rattle.mj_facts.specs.Calls.{header_op};

/// The objects of no journal stay as they are, through every event and every operation that is sent to the journal alone.
pub fn what_is_not_committed_stays()
    ensures begins { (rank : ℕ) (base image : Contents) (s : StoreState) → ((name : ObjectName) → IsElsewhere rank name → image name ≡ base name) →
        keys_of (image (journal_object rank 0)) ≡ keys_of (base (journal_object rank 0)) → NothingCommitted rank base (at_rest image s) }
    ensures quiet { (rank : ℕ) (base : Contents) (s : StoreState) → Quiet s → NothingCommitted rank base (at_rest (contents s) s) → NothingCommitted rank base s }
    ensures tried { (rank : ℕ) (base : Contents) (s : StoreState) (name : ObjectName) → NothingCommitted rank base s → NothingCommitted rank base (tried name s) }
    ensures not_done { (rank : ℕ) (base : Contents) (s : StoreState) (name : ObjectName) → NothingCommitted rank base s → NothingCommitted rank base (failed name s) }
    ensures told { (rank : ℕ) (base : Contents) (s : StoreState) → NothingCommitted rank base s → NothingCommitted rank base (reported s) }
    ensures header { (rank : ℕ) (base : Contents) (s : StoreState) (op : ℕ) (h : Header) (keys : Option (List ℕ) × Pairs) →
        keys_of (base (journal_object rank 0)) ≡ Some keys → NothingCommitted rank base s → NothingCommitted rank base (submitted (header_op rank h) op s) }
    ensures journal { (rank : ℕ) (base : Contents) (s : StoreState) (op index : ℕ) (act : ObjectAct) → 1 ≤ index → NothingCommitted rank base s →
        NothingCommitted rank base (submitted (record { name = journal_object rank index; act = act }) op s) }
{}

/// So each image holds there what was held, and stores the same cells.
pub fn what_is_not_committed_is_stored()
    ensures elsewhere { (rank : ℕ) (base : Contents) (s : StoreState) (image : Contents) → NothingCommitted rank base s → IsImage s image →
        (name : ObjectName) → IsElsewhere rank name → image name ≡ base name }
    ensures keys { (rank : ℕ) (base : Contents) (s : StoreState) (image : Contents) → NothingCommitted rank base s → IsImage s image →
        (d : ℕ) → keys_of (image (File d 0)) ≡ keys_of (base (File d 0)) }
    ensures cells { (rank : ℕ) (base : Contents) (s : StoreState) (image : Contents) → NothingCommitted rank base s → IsImage s image →
        (k : CellKey) → stored_cell image rank k ≡ stored_cell base rank k }
    ensures table { (rank : ℕ) (base : Contents) (s : StoreState) (image : Contents) (m n : Objects) → NothingCommitted rank base s →
        IsImage s image → Holds image m → Holds base n → stored_table rank m ≡ stored_table rank n }
{}

/// So the table and the tree that are gathered from an image are those of the stored table and a front of the events.
pub fn a_front_is_gathered()
    ensures { (j : Journalled) (safe : ℕ) (headers : List Header) (names : List ObjectName) (s : StoreState) (base image : Contents) (n : Objects) →
        IsFront j safe headers image → HoldsOnly names s → NothingCommitted j.rank base s → IsImage s image → Holds base n →
        IsGathered j safe headers (stored_table j.rank n) image }
{}
