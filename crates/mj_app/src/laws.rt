//! How one run of the program follows another.

ghost use Rattle.std.specs.Prelude.{◌≡◌, ℕ, List, None, Some};
ghost use Rattle.mj_base.specs.Files.{FilesByName};
ghost use Rattle.mj_base.specs.declared.object.ObjectName.{ObjectName};
ghost use Rattle.mj_format.specs.Formatting.{IsFormattedOver};
ghost use Rattle.mj_layout.specs.Striping.{Striping, IsStriping};
ghost use Rattle.mj_machine.specs.Machine.{LogMachine};
ghost use Rattle.mj_memstore.specs.Store.{memory_state};
ghost use Rattle.mj_memstore.specs.declared.memory.MemStore.{MemStore};
ghost use Rattle.mj_rank.specs.Live.{Rested};
ghost use Rattle.mj_store.specs.Object.{Contents};
ghost use Rattle.mj_store.specs.State.{contents};
ghost use Rattle.mj_app.specs.Call.{FilesState};
ghost use Rattle.mj_app.specs.Headline.{IsFormatted, RestsAgain};
ghost use Rattle.mj_app.specs.ImageFile.{IsRead, IsWritten};

/// A store that is at rest once it is stopped, whose image was written, is at rest under the same machine when that is read again.
pub fn a_written_image_rests()
    ensures { (rank : ℕ) (m : LogMachine) (old new : FilesState) (held : FilesByName) (name : List ℕ) (left next : MemStore) →
        old.told ≡ Some held → IsWritten old new name left → RestsAgain rank m (memory_state left) →
        IsRead new.told name next → Rested rank m (memory_state next) }
{}

/// An empty store that was formatted, and whose image was written, begins with a new rank when that is read again.
pub fn a_formatted_image_begins()
    ensures { (rank : ℕ) (layout : Striping) (before : Contents) (old new : FilesState) (held : FilesByName) (name : List ℕ) (left next : MemStore) →
        IsStriping layout → ((object : ObjectName) → before object ≡ None) → IsFormattedOver rank layout before (contents (memory_state left)) →
        old.told ≡ Some held → IsWritten old new name left →
        IsRead new.told name next → IsFormatted rank layout (memory_state next) }
{}
