//! What a rank computes for its calls is what it may do.

ghost use Rattle.std.specs.Prelude.{◌≡◌, ◌⊎◌, ℕ, ◌+◌, ◌-◌, ◌*◌, ◌/◌, ◌^◌, ◌<◌, ◌≤◌, List, [], ◌∷◌, ◌++◌, length, take, drop, filter, nat_lt};
ghost use Rattle.mj_store.specs.State.{StoreState};
ghost use Rattle.mj_store.specs.Causes.{In};
ghost use Rattle.mj_layout.specs.Striping.{period};
ghost use Rattle.mj_layout.specs.Place.{unit_end};
ghost use Rattle.mj_layout.specs.Header.{IsHeader};
ghost use Rattle.mj_layout.specs.declared.Header.{Header};
ghost use Rattle.mj_event.specs.declared.Event.{Event};
ghost use Rattle.mj_facts.specs.Journalled.{IsCarried, entry_of, size_of, ends, Begins, Journalled, IsJournalled, place_of, end_of};
ghost use Rattle.mj_facts.specs.Headers.{may_stand, IsBounded};
ghost use Rattle.mj_facts.specs.Ranks.{Sent, Rank, safe_of, base_of};
ghost use Rattle.mj_facts.specs.Serves.{Serves};
ghost use Rattle.mj_facts.specs.Calls.{wanted_more, with_event, IsBuffer, MayAppend, MayWrite, MayMakeSafe, MayRemove, count_by, entry_ends, IsLastEnd};

/// An event may be appended, with its entry behind the bytes that are not yet sent.
pub fn an_event_is_appended()
    ensures may { (r : Rank) (s : StoreState) (e : Event) → Serves r s → IsCarried e → end_of r.journal + size_of e < 2 ^ 62 →
        ((h : Header) → In h (may_stand r.stood r.heads) → h.expire ≡ end_of r.journal → Begins (e ∷ [])) →
        MayAppend r (e ∷ []) (wanted_more r.journal.want (end_of r.journal) (entry_of (end_of r.journal) e)) }
    ensures buffer { (j : Journalled) (e : Event) (flushed : ℕ) (buffer : List ℕ) → IsBuffer j flushed buffer →
        IsBuffer (with_event e j) flushed (buffer ++ entry_of (end_of j) e) }
{}

/// A front of these bytes may be sent, up to the end of the entries, of the stripe unit and of the window.
pub fn a_write_goes_on()
    ensures may { (r : Rank) (s : StoreState) (buffer : List ℕ) (to : ℕ) → Serves r s → IsBuffer r.journal r.flushed buffer →
        r.flushed < to → to ≤ end_of r.journal → to ≤ unit_end r.journal.layout r.flushed → to ≤ safe_of r + 4 * period r.journal.layout →
        MayWrite r to (take (to - r.flushed) buffer) }
    ensures buffer { (j : Journalled) (flushed : ℕ) (buffer : List ℕ) (to : ℕ) → IsBuffer j flushed buffer → flushed ≤ to → to ≤ end_of j →
        IsBuffer j to (drop (to - flushed) buffer) }
{}

/// Where nothing is out below a position, the events that end at or below it are safe, and no others.
pub fn what_is_done_is_safe()
    ensures may { (r : Rank) (s : StoreState) (op p : ℕ) (sent : List Sent) → Serves r s → ((w : Sent) → In w r.sent → In w sent ⊎ (w.op ≡ op)) →
        safe_of r ≤ p → p ≤ r.flushed → ((w : Sent) → In w sent → p ≤ w.from) → MayMakeSafe r op (count_by p r) sent }
    ensures place { (r : Rank) (p : ℕ) → safe_of r ≤ p → place_of r.journal (count_by p r) ≤ p }
    ensures most { (r : Rank) (p i : ℕ) → r.count ≤ i → i ≤ length r.journal.events → place_of r.journal i ≤ p → i ≤ count_by p r }
    ensures last { (r : Rank) (p end : ℕ) → safe_of r ≤ p → IsLastEnd (safe_of r) (entry_ends (safe_of r) (drop r.count r.journal.events)) p end →
        end ≡ place_of r.journal (count_by p r) }
{}

/// The ends of entries, as a journal keeps those above the safe position: they go when it rises, and one comes with each entry.
pub fn ends_follow_the_events()
    ensures left { (at : ℕ) (es : List Event) (k : ℕ) → k ≤ length es →
        filter (λ e. nat_lt (ends at (take k es)) e) (entry_ends at es) ≡ entry_ends (ends at (take k es)) (drop k es) }
    ensures more { (at : ℕ) (es : List Event) (e : Event) → entry_ends at (es ++ e ∷ []) ≡ entry_ends at es ++ (ends at es + size_of e) ∷ [] }
{}

/// Places rise with the events and tell them apart, and the last place is the end.
pub fn places_follow_the_events()
    ensures rises { (j : Journalled) (i k : ℕ) → i ≤ k → place_of j i ≤ place_of j k }
    ensures back { (j : Journalled) (i k : ℕ) → i ≤ length j.events → place_of j i ≤ place_of j k → i ≤ k }
    ensures last { (j : Journalled) (i : ℕ) → length j.events ≤ i → place_of j i ≡ end_of j }
{}

/// An object of a set that lies wholly below what is live may be removed.
pub fn a_set_below_is_removed()
    ensures { (r : Rank) (s : StoreState) (index live : ℕ) → Serves r s → 1 ≤ index → live ≤ base_of r →
        (index / r.journal.layout.sc + 1) * period r.journal.layout ≤ live → MayRemove r index }
{}

/// A header with the expire of one that may stand may stand too, as a mount repeats it.
pub fn an_expire_is_repeated()
    ensures { (j : Journalled) (count : ℕ) (h k : Header) → IsBounded j count h → IsHeader k → k.layout ≡ h.layout → k.format ≡ h.format →
        k.expire ≡ h.expire → k.write ≤ place_of j count → IsBounded j count k }
{}
