//! The operations that make a formatted store.

ghost use Rattle.std.specs.Prelude.{◌≡◌, IfOk};
ghost use Rattle.mj_base.specs.Reading.{eight};
ghost use Rattle.mj_recovery.specs.Formatted.{formatted_header};
ghost use Rattle.mj_format.specs.Formatting.{header_object};
ghost use Rattle.mj_format.specs.Sending.{head_op, table_ops, header_op};

use mj_base::{Items, ObjectName, RankNo, put_u64};
use mj_layout::{Header, Layout, Phase, journal_object};
use mj_recovery::{ROOT, first_ino, stray_ino};
use mj_store::{HeadAct, ObjectAct, ObjectOp};
use std::alloc::{AllocError, Global};

/// The object with the header of a rank's journal.
pub fn header_object(rank: RankNo) -> ObjectName
    ensures { result ≡ header_object rank }
{
    journal_object(rank, 0)
}

/// The root and stray as directories with no names, an inode table that goes on with the rank's first inode, and a session
/// table without sessions.
pub fn table_ops(alloc: Global, rank: RankNo) -> Result<Vec<ObjectOp>, AllocError>
    ensures { IfOk result (λ ops. ops.items ≡ table_ops rank) }
{
    let ops = Vec::from_array(
        alloc,
        [
            directory(alloc, ROOT.0)?,
            directory(alloc, stray_ino(rank).0)?,
            with_head(
                alloc,
                ObjectName::InoTable(rank),
                HeadAct::Put(number_bytes(alloc, first_ino(rank).0)?),
            ),
            with_head(alloc, ObjectName::SessionMap(rank), HeadAct::Leave),
        ],
    )?;
    Ok(ops)
}

/// The header of a journal in which nothing stands, from its second set on.
pub fn header_op(alloc: Global, rank: RankNo, layout: Layout) -> Result<ObjectOp, AllocError>
    ensures { IfOk result (λ op. op ≡ header_op rank layout) }
{
    let bytes = Items::from_vec(first_header(layout).write(alloc)?);
    Ok(ObjectOp {
        name: header_object(rank),
        act: ObjectAct::Write { at: 0, bytes },
    })
}

fn first_header(layout: Layout) -> Header
    ensures { result ≡ formatted_header layout }
{
    let period = layout.period();
    Header {
        trimmed: period,
        expire: period,
        write: period,
        layout,
        format: 1,
        phase: Phase::Serving,
        epoch: 0,
    }
}

// A directory in its first version.
fn directory(alloc: Global, ino: u64) -> Result<ObjectOp, AllocError>
    ensures { IfOk result (λ op. op ≡ head_op (ObjectName.File ino 0) (HeadAct.Put (eight 1))) }
{
    let version = number_bytes(alloc, 1)?;
    let name = ObjectName::File { ino, index: 0 };
    Ok(with_head(alloc, name, HeadAct::Put(version)))
}

fn with_head(alloc: Global, name: ObjectName, head: HeadAct) -> ObjectOp
    ensures { result ≡ head_op name head }
{
    ObjectOp {
        name,
        act: ObjectAct::Keys {
            set: Items::from_vec(Vec::new(alloc)),
            drop: Items::from_vec(Vec::new(alloc)),
            head,
        },
    }
}

fn number_bytes(alloc: Global, n: u64) -> Result<Items<u8>, AllocError>
    ensures { IfOk result (λ bytes. bytes ≡ eight n) }
{
    let mut bytes = Vec::new(alloc);
    put_u64(n, &mut bytes)?;
    Ok(Items::from_vec(bytes))
}
