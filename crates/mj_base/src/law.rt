//! What the two directions of names, texts and records have in common: each value has one spelling.

ghost use Rattle.std.specs.Prelude.{◌≡◌, ◌++◌, ℕ, List, IsTrue, None, Ok};
ghost use Rattle.mj_base.specs.declared.record.InodeRecord.{InodeRecord};
ghost use Rattle.mj_base.specs.declared.record.Kind.TheVariants.{Symlink};
ghost use Rattle.mj_base.specs.Name.{is_name, is_path, name_refusal, escaped, path_text};
ghost use Rattle.mj_base.specs.PathText.{unescaped, path_of};
ghost use Rattle.mj_base.specs.Reading.{AreBytes};
ghost use Rattle.mj_base.specs.Record.{IsRecord, record_at, record_bytes, target_fits};
ghost use Rattle.mj_base.specs.Target.{target_refusal};

/// A name is refused for nothing, and a symlink's target for nothing.
pub fn names_are_read()
    ensures names { (bytes : List ℕ) → IsTrue (is_name bytes) → name_refusal bytes ≡ None }
    ensures targets { (bytes : List ℕ) → IsTrue (target_fits Symlink bytes) → target_refusal bytes ≡ None }
{}

/// The text of bytes stands for them, and a text that stands for bytes is theirs.
pub fn escapes_are_read_again()
    ensures again { (bytes : List ℕ) → AreBytes bytes → unescaped (escaped bytes) ≡ Ok bytes }
    ensures takes { (text bytes : List ℕ) → unescaped text ≡ Ok bytes → text ≡ escaped bytes }
{}

/// The text of a path stands for it, and a text that stands for a path is its.
pub fn paths_are_read_again()
    ensures again { (names : List (List ℕ)) → IsTrue (is_path names) → path_of (path_text names) ≡ Ok names }
    ensures takes { (text : List ℕ) (names : List (List ℕ)) → path_of text ≡ Ok names → text ≡ path_text names }
{}

/// A record's bytes are read as that record, whatever follows them, and bytes that are read as a record begin with its.
pub fn records_are_read_again()
    ensures again { (r : InodeRecord) (rest : List ℕ) → IsRecord r → record_at (record_bytes r ++ rest) ≡ Ok (r, rest) }
    ensures takes { (bytes : List ℕ) (r : InodeRecord) (rest : List ℕ) → AreBytes bytes → record_at bytes ≡ Ok (r, rest)
        → (bytes ≡ record_bytes r ++ rest) × IsRecord r }
{}
