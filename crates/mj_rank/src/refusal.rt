//! Why a rank or a mount refuses.

ghost use Rattle.std.specs.Prelude.{◌≡◌, Some};
ghost use Rattle.mj_rank.specs.Refusals.{IsDown, SaysOfAppend};

use mj_base::{Damage, OpNo};
use mj_journaler::AppendRefusal;
use mj_replay::JournalRefusal;
use mj_store::{ReadRefusal, StoreFault, SubmitRefusal};
use std::alloc::AllocError;

/// Why a rank is down: the operation that was not done, if one was, and the store's count of faults then.
#[derive(Clone, Copy, Debug, PartialEq, Eq)]
pub struct Fault {
    pub op: Option<OpNo>,
    pub faults: u64,
}

/// What only this crate makes, so that no refusal is made elsewhere.
#[derive(Debug, Drop)]
pub struct Sealed {
    made: (),
}

impl Sealed {
    pub(crate) fn new() -> Sealed {
        Sealed { made: () }
    }
}

/// Why a call of a rank was refused. The rank is as before.
#[derive(Debug, Drop)]
pub enum RankRefusal {
    /// The store has failed since this mount began.
    Down(Fault, Sealed),
    /// The mount has taken this many requests, and no more fit.
    MountSpent(u64, Sealed),
    /// This many bytes are not safe yet, and with the entry they would be too many.
    LogFull(u64, Sealed),
    /// The entry that would begin here ends past the last position.
    PositionSpent(u64, Sealed),
    Memory,
}

impl RankRefusal {
    pub(crate) fn down(fault: &Fault) -> RankRefusal
        ensures { IsDown fault.now result }
    {
        let Fault { op, faults } = *fault;
        RankRefusal::Down(Fault { op, faults }, Sealed::new())
    }

    pub(crate) fn of_append(refusal: AppendRefusal) -> RankRefusal
        ensures { SaysOfAppend result (Some refusal) }
    {
        match refusal {
            AppendRefusal::Full(bytes) => RankRefusal::LogFull(bytes, Sealed::new()),
            AppendRefusal::Spent(position) => RankRefusal::PositionSpent(position, Sealed::new()),
            AppendRefusal::Memory => RankRefusal::Memory,
        }
    }
}

impl From<AllocError> for RankRefusal {
    ghost use Rattle.std.specs.Prelude.{◌≡◌};
    ghost use Rattle.mj_rank.specs.declared.refusal.RankRefusal.TheVariants.{Memory};

    ghost from_gives = { λ _ e. e ≡ Memory };

    fn from(_: AllocError) -> Self {
        RankRefusal::Memory
    }
}

/// Why a mount was refused.
#[derive(Drop)]
pub enum MountRefusal {
    Damage(Damage),
    Store(StoreFault),
    Memory,
}

impl From<AllocError> for MountRefusal {
    ghost use Rattle.std.specs.Prelude.{◌≡◌};
    ghost use Rattle.mj_rank.specs.declared.refusal.MountRefusal.TheVariants.{Memory};

    ghost from_gives = { λ _ e. e ≡ Memory };

    fn from(_: AllocError) -> Self {
        MountRefusal::Memory
    }
}

impl From<StoreFault> for MountRefusal {
    ghost use Rattle.std.specs.Prelude.{◌≡◌};
    ghost use Rattle.mj_rank.specs.declared.refusal.MountRefusal.TheVariants.{Store};

    ghost from_gives = { λ fault e. e ≡ Store fault };

    fn from(fault: StoreFault) -> Self {
        MountRefusal::Store(fault)
    }
}

impl From<ReadRefusal> for MountRefusal {
    ghost use Rattle.mj_rank.specs.Refusals.{of_read};

    ghost from_gives = { λ e r. r ≡ of_read e };

    fn from(e: ReadRefusal) -> Self {
        match e {
            ReadRefusal::Failed(fault) => MountRefusal::Store(fault),
            ReadRefusal::Memory => MountRefusal::Memory,
        }
    }
}

impl From<JournalRefusal> for MountRefusal {
    ghost use Rattle.mj_rank.specs.Refusals.{of_journal};

    ghost from_gives = { λ e r. r ≡ of_journal e };

    fn from(e: JournalRefusal) -> Self {
        match e {
            JournalRefusal::Damage(damage) => MountRefusal::Damage(damage),
            JournalRefusal::Store(fault) => MountRefusal::Store(fault),
            JournalRefusal::Memory => MountRefusal::Memory,
        }
    }
}

impl From<SubmitRefusal> for MountRefusal {
    ghost use Rattle.mj_rank.specs.Refusals.{of_submit};

    ghost from_gives = { λ e r. r ≡ of_submit e };

    fn from(e: SubmitRefusal) -> Self {
        match e {
            SubmitRefusal::Failed(fault) => MountRefusal::Store(fault),
            SubmitRefusal::Memory(_) => MountRefusal::Memory,
        }
    }
}
