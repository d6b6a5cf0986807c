//! Files and a sink in memory. They tell everything, and fail the calls that they are told to.

ghost use Rattle.std.specs.Prelude.{◌≡◌, ◌⊎◌, ◌↔◌, ◌<◌, ◌≤◌, ℕ, List, [], ◌++◌, length, take};
ghost use Rattle.std.specs.Prelude.{vec_len, Some, None, IsTrue, IfOk, IfErr, OnOk, OnErr, IsErr, IsErrOf};
ghost use Rattle.mj_base.specs.Counts.{Rose};
ghost use Rattle.mj_base.specs.declared.files.FileRefusal.TheVariants.{TooLong, Failed, Memory};
ghost use Rattle.mj_base.specs.Files.{IfTold, IsRefusalOf, with_file};
ghost use Rattle.mj_base.specs.FaultPlan.{is_next_failing, after_call, new_plan};
ghost use Rattle.mj_base.specs.Memory.{files_of, files_plan, taken_by, sink_plan, room_of};

use crate::fault_plan::FaultPlan;
use crate::files::{FileRefusal, Files};
use crate::limits::MAX_FILE_BYTES;
use crate::sink::{Sink, SinkFault};
use std::alloc::{AllocError, Global};
use std::collections::BTreeMap;

/// Files in memory. A test puts its files there by `write`, and each `read` and `write` is a call.
#[derive(Drop)]
pub struct MemFiles {
    files: BTreeMap<String, Vec<u8>>,
    plan: FaultPlan,
}

impl MemFiles {
    /// Holds no file, and fails the calls with these numbers, counted from 1.
    pub fn new(alloc: Global, calls: &[u64]) -> Result<MemFiles, AllocError>
        ensures empty { IfOk result (λ m. (name : List ℕ) → files_of m name ≡ None) }
        ensures plan { IfOk result (λ m. files_plan m ≡ new_plan calls.now) }
    {
        Ok(MemFiles {
            files: BTreeMap::new(alloc),
            plan: FaultPlan::new(alloc, calls)?,
        })
    }

    pub fn copy(&self, alloc: Global) -> Result<MemFiles, AllocError>
        ensures files { IfOk result (λ m. files_of m ≡ files_of self.now) }
        ensures plan { IfOk result (λ m. files_plan m ≡ files_plan self.now) }
    {
        Ok(MemFiles {
            files: self.files.clone()?,
            plan: self.plan.copy(alloc)?,
        })
    }
}

// The bytes, where there are not too many.
fn whole(alloc: Global, held: &[u8]) -> Result<Vec<u8>, FileRefusal>
    ensures ok { IfOk result (λ bytes. bytes.items ≡ held.now) }
    ensures limit { IfOk result (λ bytes. vec_len bytes ≤ MAX_FILE_BYTES) }
    ensures err { IfErr result (λ e. (e ≡ Memory) ⊎ (e ≡ TooLong (length held.now))) }
    ensures too_long { (n : ℕ) → IsErrOf result (TooLong n) → MAX_FILE_BYTES < n }
{
    let len = held.len() as u64;
    if len > MAX_FILE_BYTES {
        return Err(FileRefusal::TooLong(len));
    }
    Ok(Vec::from_slice(alloc, held)?)
}

impl Files for MemFiles {
    ghost told = { λ m. Some (files_of m) };

    ghost faults = { λ m. (files_plan m).faults };

    fn read(&mut self, alloc: Global, name: &str) -> Result<Vec<u8>, FileRefusal>
        // as the trait says
        ensures ok { IfTold (Some (files_of self.old)) (λ files.
            IfOk result (λ bytes. files name.now ≡ Some bytes.items)) }
        ensures err { IfTold (Some (files_of self.old)) (λ files.
            IfErr result (IsRefusalOf (files name.now))) }
        ensures unchanged { Some (files_of self.new) ≡ Some (files_of self.old) }
        ensures limit { IfOk result (λ bytes. vec_len bytes ≤ MAX_FILE_BYTES) }
        ensures too_long { (n : ℕ) → IsErrOf result (TooLong n) → MAX_FILE_BYTES < n }
        ensures failed { IsErrOf result Failed →
            Rose (files_plan self.old).faults (files_plan self.new).faults }
        ensures later { (files_plan self.old).faults ≤ (files_plan self.new).faults }

        // exactly the listed calls fail
        ensures planned { IsErrOf result Failed ↔
            IsTrue (is_next_failing (files_plan self.old)) }
        ensures counted { files_plan self.new ≡ after_call (files_plan self.old) }
    {
        if self.plan.next_fails() {
            return Err(FileRefusal::Failed);
        }
        match self.files.get(name) {
            Some(held) => whole(alloc, held),
            None => Err(FileRefusal::Missing),
        }
    }

    fn write(&mut self, alloc: Global, name: &str, bytes: &[u8]) -> Result<(), FileRefusal>
        // as the trait says
        ensures ok { OnOk result
            (Some (files_of self.new) ≡ Some (with_file name.now bytes.now (files_of self.old))) }
        ensures err { OnErr result (Some (files_of self.new) ≡ Some (files_of self.old)) }
        ensures kinds { IfErr result (λ e. (e ≡ Failed) ⊎ (e ≡ Memory)) }
        ensures failed { IsErrOf result Failed →
            Rose (files_plan self.old).faults (files_plan self.new).faults }
        ensures later { (files_plan self.old).faults ≤ (files_plan self.new).faults }

        // exactly the listed calls fail
        ensures planned { IsErrOf result Failed ↔
            IsTrue (is_next_failing (files_plan self.old)) }
        ensures counted { files_plan self.new ≡ after_call (files_plan self.old) }
    {
        if self.plan.next_fails() {
            return Err(FileRefusal::Failed);
        }
        let name = String::from_str(alloc, name)?;
        let bytes = Vec::from_slice(alloc, bytes)?;
        self.files.insert(name, bytes)?;
        Ok(())
    }
}

/// A sink in memory, which takes each piece whole. Each `put` is a call.
#[derive(Drop)]
pub struct MemSink {
    taken: Vec<u8>,
    plan: FaultPlan,
}

impl MemSink {
    /// Has taken nothing, and fails the calls with these numbers, counted from 1.
    pub fn new(alloc: Global, calls: &[u64]) -> Result<MemSink, AllocError>
        ensures empty { IfOk result (λ s. taken_by s ≡ []) }
        ensures plan { IfOk result (λ s. sink_plan s ≡ new_plan calls.now) }
    {
        Ok(MemSink {
            taken: Vec::new(alloc),
            plan: FaultPlan::new(alloc, calls)?,
        })
    }

    /// The bytes taken so far.
    pub fn taken(&self) -> &[u8]
        ensures { result.now ≡ taken_by self.now }
    {
        &self.taken
    }

    pub fn copy(&self, alloc: Global) -> Result<MemSink, AllocError>
        ensures taken { IfOk result (λ s. taken_by s ≡ taken_by self.now) }
        ensures plan { IfOk result (λ s. sink_plan s ≡ sink_plan self.now) }
    {
        Ok(MemSink {
            taken: Vec::from_slice(alloc, &self.taken)?,
            plan: self.plan.copy(alloc)?,
        })
    }
}

impl Sink for MemSink {
    ghost taken = { λ s. Some (taken_by s) };

    ghost faults = { λ s. (sink_plan s).faults };

    fn put(&mut self, bytes: &[u8]) -> Result<usize, SinkFault>
        // as the trait says
        ensures most { IfOk result (λ n. n ≤ length bytes.now) }
        ensures some { IfOk result (λ n. 0 < length bytes.now → 0 < n) }
        ensures ok { IfOk result (λ n.
            Some (taken_by self.new) ≡ Some (taken_by self.old ++ take n bytes.now)) }
        ensures err { OnErr result (Some (taken_by self.new) ≡ Some (taken_by self.old)) }
        ensures cause { OnErr result
            (Rose (sink_plan self.old).faults (sink_plan self.new).faults) }
        ensures later { (sink_plan self.old).faults ≤ (sink_plan self.new).faults }

        // each piece is taken whole, but at the listed calls
        ensures whole { IfOk result (λ n. n ≡ length bytes.now) }
        ensures planned { IsTrue (is_next_failing (sink_plan self.old)) → IsErr result }
        // a call that is not listed fails only where its bytes want memory
        ensures unplanned { OnErr result
            (IsTrue (is_next_failing (sink_plan self.old))
            ⊎ (room_of self.old < length bytes.now)) }
        ensures calls { (sink_plan self.new).calls ≡ (after_call (sink_plan self.old)).calls }
        ensures failing { (sink_plan self.new).failing ≡ (sink_plan self.old).failing }
    {
        if self.plan.next_fails() {
            return Err(SinkFault);
        }
        if self.taken.extend_from_slice(bytes).is_err() {
            self.plan.count_fault();
            return Err(SinkFault);
        }
        Ok(bytes.len())
    }
}
