//! Writes with the values that their keys have before them.

ghost use Rattle.std.specs.Prelude.{◌≡◌, map, IfOk};
ghost use Rattle.mj_index.specs.Following.{early_value};
ghost use Rattle.mj_index.specs.Changes.{change_of, says, where_said, changes_over};

use mj_cells::{CellKey, CellValue, CellWrite};
use mj_tables::Layers;
use std::alloc::{AllocError, Global};

/// A write, and the value of its key before it, where that said anything.
#[derive(Clone, Copy)]
pub struct ChangeView<'a> {
    pub write: &'a CellWrite,
    pub before: Option<&'a CellValue>,
}

/// The writes over the early cells. Each key whose value says anything is looked up here, once for all that follows.
pub fn early_changes<'a>(
    alloc: Global,
    layers: &'a Layers,
    ws: &'a [CellWrite],
) -> Result<Vec<ChangeView<'a>>, AllocError>
    ensures { IfOk result (λ v. map change_of v.items ≡ changes_over (where_said (early_value layers.now)) ws.now) }
{
    let mut changes = Vec::with_capacity(alloc, ws.len())?;
    for write in ws {
        let before = if says(&write.key) {
            layers.early(&write.key)
        } else {
            None
        };
        changes.push(ChangeView { write, before })?;
    }
    Ok(changes)
}

// Whether the value of a key says anything of inodes or sessions. Heads, the next inode and kept replies do not.
fn says(key: &CellKey) -> bool
    ensures { result ≡ says key.now }
{
    matches!(
        key,
        CellKey::Dentry(..) | CellKey::Session(_) | CellKey::OpenOf(..)
    )
}
