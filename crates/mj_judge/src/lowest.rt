//! The least of some numbers.

ghost use Rattle.std.specs.Prelude.{◌≡◌};
ghost use Rattle.mj_recovery.specs.Damage.{or_less, least};

use mj_base::{ClientId, Ino};

fn or_less(n: Ino, found: Option<Ino>) -> Ino
    ensures { result ≡ or_less n found }
{
    match found {
        None => n,
        Some(m) => { if m < n { m } else { n } }
    }
}

/// The least of some inodes.
#[tactic(auto, using(crate::proofs::Lesser::lesser_more, crate::proofs::Lesser::lesser_none))]
pub fn least(inodes: &[Ino]) -> Option<Ino>
    ensures { result ≡ least inodes.now }
{
    let mut found = None;
    for n in inodes {
        found = Some(or_less(*n, found));
    }
    found
}

fn or_less_client(n: ClientId, found: Option<ClientId>) -> ClientId
    ensures { result ≡ or_less n found }
{
    match found {
        None => n,
        Some(m) => { if m < n { m } else { n } }
    }
}

/// The least of some clients.
#[tactic(auto, using(crate::proofs::Lesser::lesser_more, crate::proofs::Lesser::lesser_none))]
pub fn least_client(clients: &[ClientId]) -> Option<ClientId>
    ensures { result ≡ least clients.now }
{
    let mut found = None;
    for n in clients {
        found = Some(or_less_client(*n, found));
    }
    found
}
