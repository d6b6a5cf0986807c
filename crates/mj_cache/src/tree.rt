//! What every cache has.

ghost use Rattle.mj_cache.specs.HasTree.{HasTree};

use crate::cache::Cache;

/// Every cache's early table has its tree.
pub fn has_tree(cache: &Cache)
    ensures { HasTree cache.now }
{
    cache.has_tree();
    cache.all_fit();
    cache.all_in_range();
}
