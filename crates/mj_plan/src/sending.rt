//! What holds of each request that a client can send.

ghost use Rattle.std.specs.Prelude.{◌≡◌, IsTrue};
ghost use Rattle.mj_tree.specs.Request.{IsRequest};
ghost use Rattle.mj_delta.specs.Fits.{are_names, OpFits, IsSent};

use mj_base::Path;
use mj_tree::{ClientRequest, Op};

// Each name of a path is one.
fn path_fits(path: &Path)
    ensures { IsTrue (are_names path.now) }
{
    for name in path.names() {
        let _bytes = name.as_slice();
    }
}

fn op_fits(op: &Op)
    ensures { OpFits op.now }
{
    match op {
        Op::Mkdir { path, .. } => path_fits(path),
        Op::Create { path, .. } => path_fits(path),
        Op::Symlink { path, .. } => path_fits(path),
        Op::Link { from, to } => {
            path_fits(from);
            path_fits(to);
        }
        Op::Unlink { path } => path_fits(path),
        Op::Rmdir { path } => path_fits(path),
        Op::Rename { from, to } => {
            path_fits(from);
            path_fits(to);
        }
        Op::SetAttr {
            path,
            uid,
            gid,
            size,
            mtime,
            ..
        } => {
            let _numbers = (*uid, *gid, *size, *mtime);
            path_fits(path);
        }
        Op::OpenFile { path } => path_fits(path),
        Op::Release { ino } => {
            let _number = ino.0;
        }
        Op::Lookup { path } => path_fits(path),
        Op::Readdir { path } => path_fits(path),
        Op::Readlink { path } => path_fits(path),
        Op::SessionOpen | Op::SessionClose => {}
    }
}

// The numbers of a request's client, of itself, and of the oldest reply that may still be asked for.
fn numbers(r: &ClientRequest) -> (u32, u64, u64)
    ensures client { result.0 ≡ r.entry.now.client }
    ensures tid { result.1 ≡ r.entry.now.tid }
    ensures oldest { result.2 ≡ r.entry.now.oldest }
{
    let client = r.client;
    let tid = r.tid;
    let oldest = r.oldest;
    (client.0, tid.0, oldest.0)
}

/// A request within its limits is one that a client can send: its types say the rest.
pub fn request_fits(r: &ClientRequest)
    requires { IsRequest r.now }
    ensures { IsSent r.entry.now }
{
    let (_client, _tid, _oldest) = numbers(r);
    let _now = r.now;
    op_fits(&r.op);
}
