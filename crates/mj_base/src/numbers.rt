//! Numbers with names of their own.

ghost use Rattle.std.specs.Prelude.{◌≡◌, ◌<◌, ◌≤◌, ◌↔◌, IsNone, IfSome};

use crate::limits::MAX_RANK;
use std::marker::Model;

/// The number of an inode.
#[derive(Clone, Copy, Debug, PartialEq, Eq, PartialOrd, Ord, Hash)]
pub struct Ino(pub u64);

impl Model for Ino {
    ghost use Rattle.std.specs.Prelude.{ℕ, ◌<◌, ◌^◌};

    ghost Value = { ℕ };

    ghost view = { λ a. a.0 };

    ghost invariant = { λ a. a.0 < 2 ^ 64 };

    ghost inverse = { λ n. record { 0 = n } };
}

/// The number of a client.
#[derive(Clone, Copy, Debug, PartialEq, Eq, PartialOrd, Ord, Hash)]
pub struct ClientId(pub u32);

impl Model for ClientId {
    ghost use Rattle.std.specs.Prelude.{ℕ, ◌<◌, ◌^◌};

    ghost Value = { ℕ };

    ghost view = { λ a. a.0 };

    ghost invariant = { λ a. a.0 < 2 ^ 32 };

    ghost inverse = { λ n. record { 0 = n } };
}

/// The number that a client gives one of its requests.
#[derive(Clone, Copy, Debug, PartialEq, Eq, PartialOrd, Ord, Hash)]
pub struct Tid(pub u64);

impl Model for Tid {
    ghost use Rattle.std.specs.Prelude.{ℕ, ◌<◌, ◌^◌};

    ghost Value = { ℕ };

    ghost view = { λ a. a.0 };

    ghost invariant = { λ a. a.0 < 2 ^ 64 };

    ghost inverse = { λ n. record { 0 = n } };
}

/// The number that a store gives an operation.
#[derive(Clone, Copy, Debug, PartialEq, Eq, PartialOrd, Ord, Hash)]
pub struct OpNo(pub u64);

impl Model for OpNo {
    ghost use Rattle.std.specs.Prelude.{ℕ, ◌<◌, ◌^◌};

    ghost Value = { ℕ };

    ghost view = { λ a. a.0 };

    ghost invariant = { λ a. a.0 < 2 ^ 64 };

    ghost inverse = { λ n. record { 0 = n } };
}

/// The number of a rank, from 0 to 15.
#[derive(Clone, Copy, Debug, PartialEq, Eq, PartialOrd, Ord, Hash)]
pub struct RankNo {
    number: u8,
}

impl Model for RankNo {
    ghost use Rattle.std.specs.Prelude.{ℕ, ◌≤◌};

    ghost Value = { ℕ };

    ghost view = { λ a. a.number };

    ghost invariant = { λ a. a.number ≤ 15 };

    ghost inverse = { λ n. record { number = n } };
}

impl RankNo {
    /// The rank with this number.
    pub fn new(n: u8) -> Option<RankNo>
        ensures refused { IsNone result ↔ (15 < n) }
        ensures rank { IfSome result (λ rank. rank ≡ n) }
    {
        if n <= MAX_RANK {
            Some(RankNo { number: n })
        } else {
            None
        }
    }

    pub fn number(self) -> u8
        ensures value { result ≡ self }
        ensures range { result ≤ 15 }
    {
        self.number
    }
}
