//! What one more entry makes of the ends.

ghost use Rattle.std.specs.Prelude.{◌≡◌, ℕ, ◌++◌, ◌∷◌, [], List, None, Some};
ghost use Rattle.mj_machine.specs.declared.kept.ChronicleEntry.{ChronicleEntry};
ghost use Rattle.mj_chronicle.specs.Ends.{last_end};

/// An entry with an end is the last of its client and number, and changes nothing of the others.
pub fn an_entry_with_an_end_is_the_last()
    ensures own { (es : List ChronicleEntry) (e : ChronicleEntry) (end : ℕ) → e.ends_at ≡ Some end →
        last_end e.request.client e.request.tid (es ++ e ∷ []) ≡ Some end }
    ensures others { (es : List ChronicleEntry) (e : ChronicleEntry) (client tid : ℕ) →
        (e.request.client ≡ client → e.request.tid ≡ tid → ⊥) → last_end client tid (es ++ e ∷ []) ≡ last_end client tid es }
{}

/// An entry without one changes no end.
pub fn an_entry_without_an_end_changes_none()
    ensures { (es : List ChronicleEntry) (e : ChronicleEntry) (client tid : ℕ) → e.ends_at ≡ None →
        last_end client tid (es ++ e ∷ []) ≡ last_end client tid es }
{}
