//! One object of a journal on a store.

ghost use Rattle.std.specs.Prelude.{◌≡◌, ℕ, Some, IfOk, IfErr};
ghost use Rattle.mj_store.specs.State.{StoreState, contents};
ghost use Rattle.mj_store.specs.Moves.{Still};
ghost use Rattle.mj_store.specs.Causes.{IsCounted};
ghost use Rattle.mj_recovery.specs.Stream.{journal_object};
ghost use Rattle.mj_probe.specs.Looks.{Looks};
ghost use Rattle.mj_probe.specs.Missing.{size_of};

use mj_base::RankNo;
use mj_layout::journal_object;
use mj_store::{ObjectStore, StoreFault};

/// How many bytes an object of the journal holds, none where it is absent.
pub fn size_of<S: ObjectStore>(store: &mut S, rank: RankNo, index: u64) -> Result<u64, StoreFault>
    ensures told { IfOk result (λ size. (s : StoreState) → S.state store.old ≡ Some s → Still s → size ≡ size_of (contents s (journal_object rank index))) }
    ensures looks { Looks (S.state store.old) (S.state store.new) (S.unreported store.old) (S.unreported store.new) (S.faults store.old) (S.faults store.new) }
    ensures cause { IfErr result (IsCounted (S.faults store.old) (S.faults store.new)) }
{
    let size = store.size(&journal_object(rank, index))?;
    Ok(size.unwrap_or(0))
}
