//! The event of each change gives the tree after the request.

ghost use Rattle.std.specs.Prelude.{◌≡◌, ℕ, List};
ghost use Rattle.mj_tree.specs.declared.change.Attributes.{Attributes};
ghost use Rattle.mj_tree.specs.declared.change.Settings.{Settings};
ghost use Rattle.mj_tree.specs.declared.change.Change.TheVariants.{Begin, Hold, Link, Move, Nothing, Release, Replace, Set, Unlink};
ghost use Rattle.mj_tree.specs.declared.change.Decision.TheVariants.{SessionBegins, SessionEnds, Accepted};
ghost use Rattle.mj_tree.specs.declared.request.ClientRequest.{ClientRequest};
ghost use Rattle.mj_tree.specs.State.{PlainState};
ghost use Rattle.mj_tree.specs.Answer.{decision};
ghost use Rattle.mj_cells.specs.Table.{Table};
ghost use Rattle.mj_delta.specs.TreeOf.{IsTreeOf};
ghost use Rattle.mj_delta.specs.Fits.{IsSent};
ghost use Rattle.mj_delta.specs.Events.{open_event, close_event, begin_event, hold_event, link_event, nothing_event, release_event, set_event};
ghost use Rattle.mj_delta.specs.Plan.{unlink_event, move_event, replace_event};
ghost use Rattle.mj_delta.specs.Steps.{GivesTree};

/// A session begins.
pub fn session_begins()
    ensures { (rank : ℕ) (t : Table) (s : PlainState) (r : ClientRequest) → IsTreeOf rank t s → IsSent r → decision s r ≡ SessionBegins → GivesTree rank t s r (open_event r) }
{}

/// A session ends, with its kept replies.
pub fn session_ends()
    ensures { (rank : ℕ) (t : Table) (s : PlainState) (r : ClientRequest) → IsTreeOf rank t s → IsSent r → decision s r ≡ SessionEnds → GivesTree rank t s r (close_event s r) }
{}

/// A directory, a file or a symlink begins.
pub fn inode_begins()
    ensures { (rank : ℕ) (t : Table) (s : PlainState) (r : ClientRequest) (i : ℕ) (place : ℕ × List ℕ) (attributes : Attributes) → IsTreeOf rank t s → IsSent r → decision s r ≡ Accepted i (Begin place attributes) → GivesTree rank t s r (begin_event t s r place attributes) }
{}

/// A file is opened.
pub fn file_opens()
    ensures { (rank : ℕ) (t : Table) (s : PlainState) (r : ClientRequest) (i client ino : ℕ) → IsTreeOf rank t s → IsSent r → decision s r ≡ Accepted i (Hold client ino) → GivesTree rank t s r (hold_event s r i) }
{}

/// A name is renamed to another name of its inode, and nothing moves.
pub fn name_stays()
    ensures { (rank : ℕ) (t : Table) (s : PlainState) (r : ClientRequest) (i : ℕ) → IsTreeOf rank t s → IsSent r → decision s r ≡ Accepted i Nothing → GivesTree rank t s r (nothing_event s r i) }
{}

/// Attributes are set.
pub fn attributes_change()
    ensures { (rank : ℕ) (t : Table) (s : PlainState) (r : ClientRequest) (i ino : ℕ) (x : Settings) → IsTreeOf rank t s → IsSent r → decision s r ≡ Accepted i (Set ino x) → GivesTree rank t s r (set_event rank t s r i x) }
{}

/// An inode gets a second link.
pub fn link_begins()
    ensures { (rank : ℕ) (t : Table) (s : PlainState) (r : ClientRequest) (i ino : ℕ) (place : ℕ × List ℕ) → IsTreeOf rank t s → IsSent r → decision s r ≡ Accepted i (Link place ino) → GivesTree rank t s r (link_event rank t s r place i) }
{}

/// A file is let go.
pub fn file_closes()
    ensures { (rank : ℕ) (t : Table) (s : PlainState) (r : ClientRequest) (i client ino : ℕ) → IsTreeOf rank t s → IsSent r → decision s r ≡ Accepted i (Release client ino) → GivesTree rank t s r (release_event rank t s r i) }
{}

/// A link ends. Its inode's record stays where a link or an open keeps it, in stray where its full dentry was the link that ended.
pub fn link_ends()
    ensures { (rank : ℕ) (t : Table) (s : PlainState) (r : ClientRequest) (i ino : ℕ) (place : ℕ × List ℕ) → IsTreeOf rank t s → IsSent r → decision s r ≡ Accepted i (Unlink place ino) → GivesTree rank t s r (unlink_event rank t s r place i) }
{}

/// A name moves to a place where none is, a directory with all that is below it.
pub fn name_moves()
    ensures { (rank : ℕ) (t : Table) (s : PlainState) (r : ClientRequest) (i ino : ℕ) (from to : ℕ × List ℕ) → IsTreeOf rank t s → IsSent r → decision s r ≡ Accepted i (Move from to ino) → GivesTree rank t s r (move_event t s r from to i) }
{}

/// A name moves over that of another inode, whose link ends.
pub fn name_replaces()
    ensures { (rank : ℕ) (t : Table) (s : PlainState) (r : ClientRequest) (i ino other : ℕ) (from to : ℕ × List ℕ) → IsTreeOf rank t s → IsSent r → decision s r ≡ Accepted i (Replace from to ino other) → GivesTree rank t s r (replace_event rank t s r from to i other) }
{}
