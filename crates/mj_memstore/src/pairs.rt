// Pairs in the order of their keys, in place.
ghost use Rattle.std.specs.Prelude.{◌≡◌, ℕ, ◌+◌, ◌<◌, ◌≤◌, List, length, vec_len, vec_capacity, T, not, IfOk, IfErr};
ghost use Rattle.std.specs.FinMap.Entries.{put, where_key, is_sorted};
ghost use Rattle.std.specs.Ordering.{eq_by_cmp};
ghost use Rattle.mj_maps.specs.Orders.{bytes_cmp};
ghost use Rattle.mj_memstore.specs.Pairs.{entries_of, IsKeyAt, IsGapAt};

use mj_store::Pair;
use std::cmp::Ordering;

// The place of a key, or the place where it belongs.
pub fn find(pairs: &[Pair], key: &[u8]) -> Result<usize, usize>
    requires { T (is_sorted bytes_cmp (entries_of pairs.now)) }
    ensures found { IfOk result (IsKeyAt pairs.now key.now) }
    ensures gap { IfErr result (IsGapAt pairs.now key.now) }
{
    pairs.binary_search_by(
        |pair: &Pair| -> Ordering
            ensures { result ≡ bytes_cmp pair.now.key key.entry.now }
        { pair.key.as_slice().cmp(key) },
    )
}

// Sets a pair. There is room for one more.
pub fn place(pairs: &mut Vec<Pair>, pair: Pair)
    requires sorted { T (is_sorted bytes_cmp (entries_of pairs.old.items)) }
    requires room { vec_len pairs.old < vec_capacity pairs.old }
    ensures entries { entries_of pairs.new.items ≡ put bytes_cmp pair.key pair.value (entries_of pairs.old.items) }
    ensures len { vec_len pairs.new ≤ vec_len pairs.old + 1 }
    ensures capacity { vec_capacity pairs.old ≤ vec_capacity pairs.new }
{
    match find(pairs, pair.key.as_slice()) {
        Ok(i) => pairs[i] = pair,
        Err(i) => pairs.insert(i, pair).unwrap(),
    }
}

// Drops a key, where it is there.
pub fn drop_key(pairs: &mut Vec<Pair>, key: &[u8])
    requires { T (is_sorted bytes_cmp (entries_of pairs.old.items)) }
    ensures entries { entries_of pairs.new.items ≡ where_key bytes_cmp (λ k. not (eq_by_cmp bytes_cmp key.now k)) (entries_of pairs.old.items) }
    ensures len { vec_len pairs.new ≤ vec_len pairs.old }
    ensures capacity { vec_capacity pairs.old ≤ vec_capacity pairs.new }
{
    if let Ok(i) = find(pairs, key) {
        let _ = pairs.remove(i);
    }
}
