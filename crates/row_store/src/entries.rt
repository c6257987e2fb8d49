// Rows in key order.
ghost use Rattle.std.specs.Prelude.{◌≡◌, ◌+◌, ◌<◌, ◌≤◌, List, length, slice_get, vec_len, vec_capacity, Some, None, IsTrue, MatchOption};
ghost use Rattle.std.specs.FinMap.Entries.{put, find};
ghost use Rattle.std.specs.Ordering.{is_lt};
ghost use Rattle.row_batch.specs.Order.{key_cmp};
ghost use Rattle.row_store.specs.Entries.{in_key_order, place_for, has_key};

use row_batch::Bytes;

/// Puts a value under a key, where there is room for a row.
pub fn put(rows: &mut Vec<(Bytes, Bytes)>, key: Bytes, value: Bytes)
    requires room { vec_len rows.old < vec_capacity rows.old }
    requires order { IsTrue (in_key_order rows.old.items) }
    ensures rows { rows.new.items ≡ put key_cmp key value rows.old.items }
    ensures len { vec_len rows.new ≤ vec_len rows.old + 1 }
    ensures capacity { vec_capacity rows.old ≤ vec_capacity rows.new }
{
    let place = place_for(rows, key.as_slice());
    if is_key_at(rows, place, key.as_slice()) {
        rows[place].1 = value;
    } else if rows.insert(place, (key, value)).is_err() {
        unreachable!();
    }
}

/// How many rows have keys before this one, by halving.
pub fn place_for(rows: &[(Bytes, Bytes)], key: &[u8]) -> usize
    requires { IsTrue (in_key_order rows.now) }
    ensures place { result ≡ place_for key.now rows.now }
    ensures within { result ≤ length rows.now }
{
    rows.partition_point(|row| is_before(row.0.as_slice(), key))
}

/// Whether a key comes before another.
pub fn is_before(a: &[u8], b: &[u8]) -> bool
    ensures { result ≡ is_lt (key_cmp a.now b.now) }
{
    a.cmp(b).is_lt()
}

/// Whether the row at a place has this key.
pub fn is_key_at(rows: &[(Bytes, Bytes)], place: usize, key: &[u8]) -> bool
    ensures { result ≡ has_key key.now (slice_get rows.now place) }
{
    match rows.get(place) {
        Some(row) => row.0.as_slice() == key,
        None => false,
    }
}

/// The value under a key, if there is one.
pub fn value_of<'a>(rows: &'a [(Bytes, Bytes)], key: &[u8]) -> Option<&'a [u8]>
    requires { IsTrue (in_key_order rows.now) }
    ensures { MatchOption result (find key_cmp key.now rows.now ≡ None) (λ value. find key_cmp key.now rows.now ≡ Some value.now) }
{
    let place = place_for(rows, key);
    if is_key_at(rows, place, key) {
        Some(rows[place].1.as_slice())
    } else {
        None
    }
}
