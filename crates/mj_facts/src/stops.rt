//! What a stop leaves, and what is read from it.

ghost use Rattle.std.specs.Prelude.{◌≡◌, ◌⊎◌, ℕ, ◌<◌, ◌≤◌, ◌^◌, length, Ok, None};
ghost use Rattle.mj_store.specs.Object.{Contents};
ghost use Rattle.mj_store.specs.State.{StoreState, IsImage};
ghost use Rattle.mj_layout.specs.declared.Header.{Header};
ghost use Rattle.mj_recovery.specs.Stream.{byte_at};
ghost use Rattle.mj_recovery.specs.Journal.{live_journal};
ghost use Rattle.mj_recovery.specs.Orderly.{IsClearBeyond, HasRecoveredTree};
ghost use Rattle.mj_recovery.specs.Recovered.{Recovery};
ghost use Rattle.mj_recovery.specs.declared.journal.LiveJournal.{LiveJournal};
ghost use Rattle.mj_facts.specs.Journalled.{Journalled, IsJournalled, place_of, taken};
ghost use Rattle.mj_facts.specs.Headers.{may_stand};
ghost use Rattle.mj_facts.specs.Ranks.{Rank, Mount, tail_of};
ghost use Rattle.mj_facts.specs.Serves.{Serves};
ghost use Rattle.mj_facts.specs.Mounts.{Mounts, MountInOrder, left_at, begun};
ghost use Rattle.mj_facts.specs.Rests.{Rests, RestsWith, RestsWhole, IsFront, journal_of, found_journal, HoldsBytes};
ghost use Rattle.mj_facts.specs.Calls.{IsFormatted, blank_journal};

/// Every image that a stop may leave rests with a front of the events that holds all that are safe, under a header that may
/// stand, and this front is the live journal that is read from it. In a mount all that were recovered are safe.
pub fn a_stop_leaves_a_front()
    ensures serving { (r : Rank) (s : StoreState) (image : Contents) → Serves r s → IsImage s image →
        IsFront r.journal r.count (may_stand r.stood r.heads) image }
    ensures serving_rests { (r : Rank) (s : StoreState) (image : Contents) → Serves r s → IsImage s image →
        RestsWith r.journal r.count (may_stand r.stood r.heads) image }
    ensures mounting { (k : Mount) (s : StoreState) (image : Contents) → Mounts k s → IsImage s image →
        IsFront k.journal (length k.journal.events) (may_stand k.stood k.heads) image }
    ensures mounting_rests { (k : Mount) (s : StoreState) (image : Contents) → Mounts k s → IsImage s image →
        RestsWith k.journal (length k.journal.events) (may_stand k.stood k.heads) image }
{}

/// Above what was sent no image has a byte of the stream, and in a mount none above the tail that the last stop did not leave there.
pub fn a_stop_leaves_nothing_above()
    ensures serving { (r : Rank) (s : StoreState) (image : Contents) → Serves r s → IsImage s image → (x : ℕ) → r.flushed ≤ x →
        byte_at image r.journal.rank r.journal.layout x ≡ None }
    ensures mounting { (k : Mount) (s : StoreState) (image : Contents) → Mounts k s → IsImage s image → (x : ℕ) → tail_of k ≤ x →
        (byte_at image k.journal.rank k.journal.layout x ≡ None) ⊎ (byte_at image k.journal.rank k.journal.layout x ≡ left_at k x) }
{}

/// What rests has a live journal: its header stands there, and its events are those from the header's expire on, up to the
/// place where the contents end. The tail is below 2^62, and no object of a set beyond the window has bytes.
pub fn what_rests_is_read()
    ensures read { (j : Journalled) (count : ℕ) (image : Contents) → IsJournalled j → (r : Rests j count image) →
        live_journal image j.rank ≡ Ok (journal_of j r.header r.bounded.first count) }
    ensures below { (j : Journalled) (count : ℕ) → IsJournalled j → place_of j count < 2 ^ 62 }
    ensures clear { (j : Journalled) (count : ℕ) (image : Contents) → IsJournalled j → Rests j count image →
        IsClearBeyond j.rank j.layout (place_of j count) image }
{}

/// An image whose live journal is read rests with all its events, where its tail is below 2^62 and no object of a set beyond the
/// window has bytes. So a rank may begin on each image that recovers.
pub fn what_is_read_rests()
    ensures recovers { (rank : ℕ) (image : Contents) (r : Recovery) → HoldsBytes image → HasRecoveredTree rank image r →
        RestsWhole (found_journal image rank r.journal) r.journal.header image }
    ensures read { (image : Contents) (rank : ℕ) (live : LiveJournal) → HoldsBytes image → live_journal image rank ≡ Ok live →
        live.tail < 2 ^ 62 → IsClearBeyond rank live.header.layout live.tail image →
        RestsWhole (found_journal image rank live) live.header image }
{}

/// A formatted store rests with no event, and a mount of it has nothing to cut.
pub fn a_formatted_store_rests()
    ensures journalled { (rank : ℕ) (h : Header) (image : Contents) → IsFormatted rank h image → IsJournalled (blank_journal rank h) }
    ensures rests { (rank : ℕ) (h : Header) (image : Contents) → IsFormatted rank h image → Rests (blank_journal rank h) 0 image }
    ensures in_order { (rank : ℕ) (h : Header) (image : Contents) → IsFormatted rank h image →
        MountInOrder (begun (taken 0 (blank_journal rank h)) image h) }
{}
