//! How often numbers stand in lists.

ghost use Rattle.std.specs.Prelude.{◌≡◌, ◌+◌, ◌<◌, ◌^◌, ◌==◌, if◌then◌else◌, ℕ, IfOk, OnOk};
ghost use Rattle.mj_recovery.specs.Damage.{times};

use mj_base::{ClientId, Ino};
use std::alloc::{AllocError, Global};
use std::collections::HashMap;

/// How often each number was counted.
#[derive(Drop)]
pub struct Counts {
    kept: HashMap<u64, u64>,
}

impl Counts {
    ghost use Rattle.mj_judge.specs.Rows.{count_in, is_counted};

    fn new(alloc: Global) -> Counts
        ensures { (k : ℕ) → count_in result k ≡ 0 }
    {
        Counts {
            kept: HashMap::new(alloc),
        }
    }

    // With room for so many numbers.
    fn with_room(alloc: Global, room: usize) -> Result<Counts, AllocError>
        ensures { IfOk result (λ c. (k : ℕ) → count_in c k ≡ 0) }
    {
        let kept = HashMap::with_capacity(alloc, room)?;
        Ok(Counts { kept })
    }

    /// How often a number was counted.
    pub fn count(&self, n: u64) -> u64
        ensures { result ≡ count_in self.now n }
    {
        match self.kept.get(&n) {
            Some(count) => *count,
            None => 0,
        }
    }

    /// Whether a number was counted.
    pub fn has(&self, n: u64) -> bool
        ensures { result ≡ is_counted self.now n }
    {
        self.count(n) > 0
    }

    // Counts a number once more.
    fn add(&mut self, n: u64) -> Result<(), AllocError>
        requires { count_in self.old n + 1 < 2 ^ 64 }
        ensures { OnOk result ((k : ℕ) → count_in self.new k ≡ (if k == n then count_in self.old n + 1 else count_in self.old k)) }
    {
        *self.kept.entry(n)?.or_insert(0) += 1;
        Ok(())
    }

    /// How often each inode stands there. There is room at once for `room` inodes that differ.
    pub fn of_inodes(alloc: Global, room: usize, inodes: &[Ino]) -> Result<Counts, AllocError>
        ensures { IfOk result (λ c. (k : ℕ) → count_in c k ≡ times k inodes.now) }
    {
        let mut counts = Counts::with_room(alloc, room)?;
        for ino in inodes {
            counts.add(ino.0)?;
        }
        Ok(counts)
    }

    /// How often each client stands there.
    pub fn of_clients(alloc: Global, clients: &[ClientId]) -> Result<Counts, AllocError>
        ensures { IfOk result (λ c. (k : ℕ) → count_in c k ≡ times k clients.now) }
    {
        let mut counts = Counts::new(alloc);
        for client in clients {
            counts.add(u64::from(client.0))?;
        }
        Ok(counts)
    }
}
