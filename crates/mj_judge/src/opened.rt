//! The first of some opens.

ghost use Rattle.std.specs.Prelude.{◌≡◌, ℕ, map, filter_map, IfOk};
ghost use Rattle.mj_recovery.specs.Damage.{client_of, opened_by, first_open};

use crate::lowest::{least, least_client};
use mj_base::{ClientId, Damage, Ino};
use std::alloc::{AllocError, Global};

/// The inode of each open.
pub fn opened_inodes(alloc: Global, opens: &[(ClientId, Ino)]) -> Result<Vec<Ino>, AllocError>
    ensures { IfOk result (λ v. v.items ≡ map (λ (o : ℕ × ℕ). o.1) opens.now) }
{
    let mut found = Vec::new(alloc);
    for open in opens {
        found.push(open.1)?;
    }
    Ok(found)
}

// The clients that have an inode open.
fn clients_of(
    alloc: Global,
    ino: Ino,
    opens: &[(ClientId, Ino)],
) -> Result<Vec<ClientId>, AllocError>
    ensures { IfOk result (λ v. v.items ≡ filter_map (client_of ino) opens.now) }
{
    let mut found = Vec::new(alloc);
    for open in opens {
        if open.1 == ino {
            found.push(open.0)?;
        }
    }
    Ok(found)
}

// The open of an inode with the least client.
fn opened_by(
    alloc: Global,
    opens: &[(ClientId, Ino)],
    ino: Ino,
) -> Result<Option<Damage>, AllocError>
    ensures { IfOk result (λ o. o ≡ opened_by opens.now ino) }
{
    let clients = clients_of(alloc, ino, opens)?;
    match least_client(&clients) {
        Some(client) => Ok(Some(Damage::BadOpen(client, ino))),
        None => Ok(None),
    }
}

/// The open that is named first, as damage: the one of the least inode with the least client.
pub fn first_open(alloc: Global, opens: &[(ClientId, Ino)]) -> Result<Option<Damage>, AllocError>
    ensures { IfOk result (λ o. o ≡ first_open opens.now) }
{
    let inodes = opened_inodes(alloc, opens)?;
    match least(&inodes) {
        Some(ino) => opened_by(alloc, opens, ino),
        None => Ok(None),
    }
}
