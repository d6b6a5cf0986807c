//! The calls that are to fail, for what stands in for the outside in a test.

ghost use Rattle.std.specs.Prelude.{◌≡◌, ◌≤◌, [], true, IfOk};
ghost use Rattle.mj_base.specs.Counts.{Rose};
ghost use Rattle.mj_base.specs.FaultPlan.{is_next_failing, after_call, after_fault, new_plan};

use std::alloc::{AllocError, Global};
use std::marker::Model;

/// The numbers of the calls that are to fail, counted from 1, with a count of the calls and one of
/// the faults.
#[derive(Drop)]
pub struct FaultPlan {
    failing: Vec<u64>,
    calls: u64,
    faults: u64,
}

impl Model for FaultPlan {
    ghost use Rattle.mj_base.specs.FaultPlan.{PlanState};

    ghost Value = { PlanState };

    ghost view = { λ p. record { failing = p.failing.items; calls = p.calls; faults = p.faults } };
}

impl FaultPlan {
    pub fn new(alloc: Global, calls: &[u64]) -> Result<FaultPlan, AllocError>
        ensures { IfOk result (λ plan. plan ≡ new_plan calls.now) }
    {
        Ok(FaultPlan {
            failing: Vec::from_slice(alloc, calls)?,
            calls: 0,
            faults: 0,
        })
    }

    /// No call is to fail.
    pub fn none(alloc: Global) -> FaultPlan
        ensures { result ≡ new_plan [] }
    {
        FaultPlan {
            failing: Vec::new(alloc),
            calls: 0,
            faults: 0,
        }
    }

    /// How many faults were counted.
    pub fn faults(&self) -> u64
        ensures { result ≡ self.now.faults }
    {
        self.faults
    }

    pub fn copy(&self, alloc: Global) -> Result<FaultPlan, AllocError>
        ensures { IfOk result (λ plan. plan ≡ self.now) }
    {
        Ok(FaultPlan {
            failing: Vec::from_slice(alloc, &self.failing)?,
            calls: self.calls,
            faults: self.faults,
        })
    }

    /// Counts one more call, and says whether it is to fail: then its fault is counted too.
    pub fn next_fails(&mut self) -> bool
        ensures answer { result ≡ is_next_failing self.old }
        ensures counted { self.new ≡ after_call self.old }
        ensures cause { result ≡ true → Rose self.old.faults self.new.faults }
        ensures later { self.old.faults ≤ self.new.faults }
    {
        // past the greatest number no call is listed
        let Some(number) = self.calls.checked_add(1) else {
            return false;
        };
        self.calls = number;
        let fails = self.failing.contains(&number);
        if fails {
            self.faults = self.faults.saturating_add(1);
        }
        fails
    }

    /// Counts a fault that was not planned.
    pub fn count_fault(&mut self)
        ensures counted { self.new ≡ after_fault self.old }
        ensures cause { Rose self.old.faults self.new.faults }
        ensures later { self.old.faults ≤ self.new.faults }
    {
        self.faults = self.faults.saturating_add(1);
    }
}
