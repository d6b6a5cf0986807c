//! One call that formats a store.

ghost use Rattle.std.specs.Prelude.{◌≡◌, ℕ, ◌≤◌, Some, None, is_some, [], IfOk, OnOk, IfErr, IsErrOf};
ghost use Rattle.mj_store.specs.Object.{Content};
ghost use Rattle.mj_store.specs.State.{StoreState, Quiet, contents};
ghost use Rattle.mj_store.specs.Events.{Tells};
ghost use Rattle.mj_store.specs.Causes.{Counted, IsCounted};
ghost use Rattle.mj_store.specs.Calls.{RefusesPerform};
ghost use Rattle.mj_store.specs.declared.answer.PerformRefusal.TheVariants.{Waiting as waiting_for};
ghost use Rattle.mj_format.specs.Refusals.{RefusesFormat, IsFormattedOrFault};
ghost use Rattle.mj_format.specs.Formatting.{header_object, IsFormatted, StopsWell};
ghost use Rattle.mj_format.specs.declared.refusal.FormatRefusal.TheVariants.{Formatted, Waiting};

use crate::made::{header_object, header_op, table_ops};
use crate::refusal::FormatRefusal;
use crate::sending::perform_all;
use mj_base::RankNo;
use mj_layout::Layout;
use mj_store::{ObjectStore, PerformRefusal, StoreFault, perform};
use std::alloc::Global;

/// Makes the objects that a rank begins with, each whole before the next, and the journal's header last. A store with a
/// journal of this rank is refused and stays as it is.
pub fn format<S: ObjectStore>(
    alloc: Global,
    store: &mut S,
    rank: RankNo,
    layout: Layout,
) -> Result<(), FormatRefusal>
    ensures ok { OnOk result ((s : StoreState) → S.state store.old ≡ Some s → Quiet s → Tells (S.state store.new) (IsFormatted rank layout (contents s))) }
    ensures none_listed { OnOk result ((s : StoreState) → S.state store.old ≡ Some s → Quiet s → S.unreported store.old ≡ [] → S.unreported store.new ≡ []) }
    ensures absent { OnOk result ((s : StoreState) → S.state store.old ≡ Some s → Quiet s → contents s (header_object rank) ≡ None) }
    ensures refused { (s : StoreState) → IsErrOf result Formatted → S.state store.old ≡ Some s → Quiet s → (held : Content) × (contents s (header_object rank) ≡ Some held) }
    ensures there { IfErr result (λ why. (s : StoreState) (held : Content) → S.state store.old ≡ Some s → Quiet s → contents s (header_object rank) ≡ Some held → IsFormattedOrFault why × (S.state store.new ≡ Some s) × (S.unreported store.new ≡ S.unreported store.old)) }
    ensures stops { (s : StoreState) → S.state store.old ≡ Some s → Quiet s → contents s (header_object rank) ≡ None → StopsWell rank layout (contents s) (S.state store.old) (S.state store.new) }
    ensures waiting { (number : ℕ) (s : StoreState) → IsErrOf result (Waiting number) → S.state store.old ≡ Some s → Quiet s → ⊥ }

    // over every store
    ensures cause { IfErr result (RefusesFormat (S.faults store.old) (S.faults store.new) (S.unreported store.new)) }
    ensures counted { (base : ℕ) → Counted base (S.faults store.old) (S.unreported store.old) → Counted base (S.faults store.new) (S.unreported store.new) }
    ensures later { S.faults store.old ≤ S.faults store.new }
{
    if has_journal(store, rank)? {
        return Err(FormatRefusal::Formatted);
    }
    write_objects(alloc, store, rank, layout)?;
    Ok(())
}

// Whether the journal's first object is there.
fn has_journal<S: ObjectStore>(store: &mut S, rank: RankNo) -> Result<bool, StoreFault>
    ensures told { IfOk result (λ there. (s : StoreState) → S.state store.old ≡ Some s → Quiet s → there ≡ is_some (contents s (header_object rank))) }
    ensures stays { (s : StoreState) → S.state store.old ≡ Some s → Quiet s → S.state store.new ≡ Some s }
    ensures same_list { S.unreported store.new ≡ S.unreported store.old }
    ensures cause { IfErr result (IsCounted (S.faults store.old) (S.faults store.new)) }
    ensures later { S.faults store.old ≤ S.faults store.new }
{
    let size = store.size(&header_object(rank))?;
    Ok(size.is_some())
}

// Makes the objects in their order, where there is no journal. All memory for them is taken before the first is sent.
fn write_objects<S: ObjectStore>(
    alloc: Global,
    store: &mut S,
    rank: RankNo,
    layout: Layout,
) -> Result<(), PerformRefusal>
    ensures ok { OnOk result ((s : StoreState) → S.state store.old ≡ Some s → Quiet s → Tells (S.state store.new) (IsFormatted rank layout (contents s))) }
    ensures none_listed { OnOk result ((s : StoreState) → S.state store.old ≡ Some s → Quiet s → S.unreported store.old ≡ [] → S.unreported store.new ≡ []) }
    ensures stops { (s : StoreState) → S.state store.old ≡ Some s → Quiet s → contents s (header_object rank) ≡ None → StopsWell rank layout (contents s) (S.state store.old) (S.state store.new) }
    ensures waiting { (number : ℕ) (s : StoreState) → IsErrOf result (waiting_for number) → S.state store.old ≡ Some s → Quiet s → ⊥ }
    ensures cause { IfErr result (RefusesPerform (S.faults store.old) (S.faults store.new) (S.unreported store.new)) }
    ensures counted { (base : ℕ) → Counted base (S.faults store.old) (S.unreported store.old) → Counted base (S.faults store.new) (S.unreported store.new) }
    ensures later { S.faults store.old ≤ S.faults store.new }
{
    let tables = table_ops(alloc, rank)?;
    let header = header_op(alloc, rank, layout)?;
    perform_all(alloc, store, tables)?;
    perform(alloc, store, header)?;
    Ok(())
}
