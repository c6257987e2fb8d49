// A batch is done to rows in one pass.
ghost use Rattle.std.specs.Prelude.{◌≡◌, ◌+◌, ◌-◌, ◌<◌, ◌≤◌, ◌||◌, List, [], true, length, drop, slice_get, vec_len, vec_capacity, IsTrue, if◌then◌else◌};
ghost use Rattle.std.specs.VecDeque.{deque_len};
ghost use lib.Dec.{T};
ghost use Rattle.std.specs.FinMap.Entries.{below_all};
ghost use Rattle.row_batch.specs.Order.{key_cmp, in_order};
ghost use Rattle.row_store.specs.Entries.{Entries, in_key_order};
ghost use Rattle.row_store.specs.Merging.{put_all, put_first, is_first_before, is_deletion_of, is_prefix_of, passes_deletion, passes_prefix, holds, skip, kept, unless, IsFrom, Moves};

use crate::entries::{is_before, put};
use crate::preparing::Prepared;
use row_batch::{Bytes, Operation};
use std::collections::VecDeque;
use std::mem;

/// Takes away the rows that the deletions of a batch name, and then puts others, all in key order. It moves each row once and
/// takes no memory.
pub fn apply(rows: &mut Vec<(Bytes, Bytes)>, prepared: Prepared, operations: &[Operation])
    requires batch { in_order operations.now ≡ true }
    requires sorted { IsTrue (in_key_order rows.old.items) }
    requires empty { prepared.room.items ≡ [] }
    requires room { vec_len rows.old + deque_len prepared.puts ≤ vec_capacity prepared.room }
    ensures rows { rows.new.items ≡ put_all prepared.puts.items (kept operations.now operations.now rows.old.items) }
    ensures order { IsTrue (in_key_order rows.new.items) }
{
    let Prepared { mut puts, room } = prepared;
    let old = mem::replace(rows, room);
    merge(rows, &mut puts, old, operations);
    move_all(rows, &mut puts);
}

/// The same where it is to be done; else the rows stay as they are.
pub fn apply_where(
    done: bool,
    rows: &mut Vec<(Bytes, Bytes)>,
    prepared: Prepared,
    operations: &[Operation],
)
    requires batch { in_order operations.now ≡ true }
    requires sorted { IsTrue (in_key_order rows.old.items) }
    requires empty { prepared.room.items ≡ [] }
    requires room { vec_len rows.old + deque_len prepared.puts ≤ vec_capacity prepared.room }
    ensures rows { rows.new.items ≡ (if done then put_all prepared.puts.items (kept operations.now operations.now rows.old.items) else rows.old.items) }
    ensures order { IsTrue (in_key_order rows.new.items) }
{
    if done {
        apply(rows, prepared, operations);
    }
}

/// Moves the rows that stay, and the puts before them, behind each other.
fn merge(
    rows: &mut Vec<(Bytes, Bytes)>,
    puts: &mut VecDeque<(Bytes, Bytes)>,
    old: Vec<(Bytes, Bytes)>,
    operations: &[Operation],
)
    requires batch { in_order operations.now ≡ true }
    requires sorted { IsTrue (in_key_order old.items) }
    requires empty { rows.old.items ≡ [] }
    requires room { vec_len old + deque_len puts.old ≤ vec_capacity rows.old }
    ensures rows { Moves puts.old.items [] (kept operations.now operations.now old.items) puts.new.items rows.new.items [] }
    ensures room { vec_len rows.new + deque_len puts.new ≤ vec_capacity rows.new }
{
    let mut deletion = 0;
    let mut prefix = 0;
    'each: for row in old {
        deletion = behind_deletions(operations, deletion, row.0.as_slice());
        prefix = behind_prefixes(operations, prefix, row.0.as_slice());
        let gone = is_named(operations, deletion, prefix, row.0.as_slice());
        move_unless(gone, rows, puts, row);
    }
}

/// The place behind the deletions from a place on that name neither a key nor any behind it.
fn behind_deletions(operations: &[Operation], from: usize, key: &[u8]) -> usize
    requires { from ≤ length operations.now }
    ensures within { result ≤ length operations.now }
    ensures passed { drop result operations.now ≡ skip (passes_deletion key.now) (drop from operations.now) }
{
    let mut at = from;
    'each: while is_behind_deletion(operations, at, key) {
        at += 1;
    }
    at
}

fn is_behind_deletion(operations: &[Operation], at: usize, key: &[u8]) -> bool
    ensures { result ≡ holds (passes_deletion key.now) (slice_get operations.now at) }
{
    match operations.get(at) {
        Some(Operation::Delete { key: own }) => is_before(own.as_slice(), key),
        Some(_) | None => false,
    }
}

/// The same among prefix deletions.
fn behind_prefixes(operations: &[Operation], from: usize, key: &[u8]) -> usize
    requires { from ≤ length operations.now }
    ensures within { result ≤ length operations.now }
    ensures passed { drop result operations.now ≡ skip (passes_prefix key.now) (drop from operations.now) }
{
    let mut at = from;
    'each: while is_behind_prefix(operations, at, key) {
        at += 1;
    }
    at
}

fn is_behind_prefix(operations: &[Operation], at: usize, key: &[u8]) -> bool
    ensures { result ≡ holds (passes_prefix key.now) (slice_get operations.now at) }
{
    match operations.get(at) {
        Some(Operation::Delete { .. }) => true,
        Some(Operation::DeletePrefix { prefix }) => {
            is_before(prefix.as_slice(), key) && !key.starts_with(prefix.as_slice())
        }
        Some(Operation::Put { .. }) | None => false,
    }
}

/// Whether the deletion or the prefix deletion at a place names a key.
fn is_named(operations: &[Operation], deletion: usize, prefix: usize, key: &[u8]) -> bool
    ensures { result ≡ (holds (is_deletion_of key.now) (slice_get operations.now deletion) || holds (is_prefix_of key.now) (slice_get operations.now prefix)) }
{
    is_deletion_at(operations, deletion, key) || is_prefix_at(operations, prefix, key)
}

fn is_deletion_at(operations: &[Operation], at: usize, key: &[u8]) -> bool
    ensures { result ≡ holds (is_deletion_of key.now) (slice_get operations.now at) }
{
    match operations.get(at) {
        Some(Operation::Delete { key: own }) => key.cmp(own.as_slice()).is_eq(),
        Some(_) | None => false,
    }
}

fn is_prefix_at(operations: &[Operation], at: usize, key: &[u8]) -> bool
    ensures { result ≡ holds (is_prefix_of key.now) (slice_get operations.now at) }
{
    match operations.get(at) {
        Some(Operation::DeletePrefix { prefix }) => key.starts_with(prefix.as_slice()),
        Some(_) | None => false,
    }
}

/// Moves the puts of keys before a row's, and then the row, unless it is gone.
fn move_unless(
    gone: bool,
    rows: &mut Vec<(Bytes, Bytes)>,
    puts: &mut VecDeque<(Bytes, Bytes)>,
    row: (Bytes, Bytes),
)
    requires room { vec_len rows.old + deque_len puts.old < vec_capacity rows.old }
    requires order { IsTrue (in_key_order rows.old.items) }
    ensures rows { (rest : Entries) → T (below_all key_cmp row.0 rest) → Moves puts.old.items rows.old.items (unless gone row rest) puts.new.items rows.new.items rest }
    ensures len { vec_len rows.new + deque_len puts.new ≤ vec_len rows.old + deque_len puts.old + 1 }
    ensures capacity { vec_capacity rows.old ≤ vec_capacity rows.new }
{
    if !gone {
        move_before(rows, puts, row.0.as_slice());
        rows.push_reserved(row);
    }
}

/// Moves the puts of keys before one.
fn move_before(rows: &mut Vec<(Bytes, Bytes)>, puts: &mut VecDeque<(Bytes, Bytes)>, key: &[u8])
    requires room { vec_len rows.old + deque_len puts.old ≤ vec_capacity rows.old }
    requires order { IsTrue (in_key_order rows.old.items) }
    ensures rows { (rest : Entries) → IsFrom key.now rest → Moves puts.old.items rows.old.items rest puts.new.items rows.new.items rest }
    ensures len { vec_len rows.new + deque_len puts.new ≤ vec_len rows.old + deque_len puts.old }
    ensures capacity { vec_capacity rows.old ≤ vec_capacity rows.new }
{
    'each: while is_first_before(puts, key) {
        move_first(rows, puts);
    }
}

fn is_first_before(puts: &VecDeque<(Bytes, Bytes)>, key: &[u8]) -> bool
    ensures { result ≡ is_first_before key.now puts.now.items }
{
    match puts.front() {
        Some(put) => is_before(put.0.as_slice(), key),
        None => false,
    }
}

/// Moves all the puts.
fn move_all(rows: &mut Vec<(Bytes, Bytes)>, puts: &mut VecDeque<(Bytes, Bytes)>)
    requires room { vec_len rows.old + deque_len puts.old ≤ vec_capacity rows.old }
    requires order { IsTrue (in_key_order rows.old.items) }
    ensures { rows.new.items ≡ put_all puts.old.items rows.old.items }
{
    'each: while !puts.is_empty() {
        move_first(rows, puts);
    }
}

/// Puts the first of the puts, if there is one, into the rows.
fn move_first(rows: &mut Vec<(Bytes, Bytes)>, puts: &mut VecDeque<(Bytes, Bytes)>)
    requires room { vec_len rows.old + deque_len puts.old ≤ vec_capacity rows.old }
    requires order { IsTrue (in_key_order rows.old.items) }
    ensures rows { rows.new.items ≡ put_first puts.old.items rows.old.items }
    ensures puts { puts.new.items ≡ drop 1 puts.old.items }
    ensures fewer { deque_len puts.new ≡ deque_len puts.old - 1 }
    ensures len { vec_len rows.new + deque_len puts.new ≤ vec_len rows.old + deque_len puts.old }
    ensures capacity { vec_capacity rows.old ≤ vec_capacity rows.new }
{
    if let Some((key, value)) = puts.pop_front() {
        put(rows, key, value);
    }
}
