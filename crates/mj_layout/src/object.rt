//! The objects of a rank's journal.

ghost use Rattle.std.specs.Prelude.{◌≡◌};
ghost use Rattle.mj_base.specs.ObjectName.{journal_ino};
ghost use Rattle.mj_base.specs.declared.object.ObjectName.TheVariants.{File};

use mj_base::{ObjectName, RankNo};

/// The object of a rank's journal with this index. Its header is the one of index 0.
pub fn journal_object(rank: RankNo, index: u64) -> ObjectName
    ensures { result ≡ File (journal_ino rank) index }
{
    ObjectName::File {
        ino: 0x200 + u64::from(rank.number()),
        index,
    }
}
