// A batch from its bytes.
ghost use Rattle.std.specs.Prelude.{◌≡◌};
ghost use Rattle.std.specs.Int.{w16, w32};
ghost use Rattle.row_batch.specs.Order.{in_order, may_precede};
ghost use Rattle.row_batch.specs.Reading.{Gives, number_at, string_at, put_at, delete_at, delete_prefix_at, operation_at, operations_at, read_batch};

use crate::bytes::Bytes;
use crate::fault::BatchFault;
use crate::operation::Operation;
use std::alloc::Global;

/// The operations of a batch, whose bytes these are.
#[tactic(auto, unfolding(crate::specs::Reading::read_batch))]
pub fn read(alloc: Global, bytes: &[u8]) -> Result<Vec<Operation>, BatchFault>
    ensures { Gives (λ v. v.items) result (read_batch bytes.now) }
{
    let (count, rest) = u32_at(bytes)?;
    let (operations, rest) = operations_of(alloc, count, rest)?;
    if !rest.is_empty() || !is_in_order(&operations) {
        return Err(BatchFault::Malformed);
    }
    Ok(operations)
}

fn operations_of(
    alloc: Global,
    count: u32,
    bytes: &[u8],
) -> Result<(Vec<Operation>, &[u8]), BatchFault>
    ensures { Gives (λ x. (x.0.items, x.1.now)) result (operations_at count bytes.now) }
{
    let mut operations = Vec::new(alloc);
    let mut rest = bytes;
    'each: for _ in 0..count {
        let (operation, after) = operation_of(alloc, rest)?;
        operations.push(operation)?;
        rest = after;
    }
    Ok((operations, rest))
}

#[tactic(auto, unfolding(crate::specs::Reading::operation_at))]
fn operation_of(alloc: Global, bytes: &[u8]) -> Result<(Operation, &[u8]), BatchFault>
    ensures { Gives (λ x. (x.0, x.1.now)) result (operation_at bytes.now) }
{
    match bytes {
        [1, rest @ ..] => put_of(alloc, rest),
        [2, rest @ ..] => delete_of(alloc, rest),
        [3, rest @ ..] => delete_prefix_of(alloc, rest),
        _ => Err(BatchFault::Malformed),
    }
}

#[tactic(auto, unfolding(crate::specs::Reading::put_at))]
fn put_of(alloc: Global, bytes: &[u8]) -> Result<(Operation, &[u8]), BatchFault>
    ensures { Gives (λ x. (x.0, x.1.now)) result (put_at bytes.now) }
{
    let (key, rest) = key_of(alloc, bytes)?;
    let (value, rest) = value_of(alloc, rest)?;
    Ok((Operation::Put { key, value }, rest))
}

#[tactic(auto, unfolding(crate::specs::Reading::delete_at))]
fn delete_of(alloc: Global, bytes: &[u8]) -> Result<(Operation, &[u8]), BatchFault>
    ensures { Gives (λ x. (x.0, x.1.now)) result (delete_at bytes.now) }
{
    let (key, rest) = key_of(alloc, bytes)?;
    Ok((Operation::Delete { key }, rest))
}

#[tactic(auto, unfolding(crate::specs::Reading::delete_prefix_at))]
fn delete_prefix_of(alloc: Global, bytes: &[u8]) -> Result<(Operation, &[u8]), BatchFault>
    ensures { Gives (λ x. (x.0, x.1.now)) result (delete_prefix_at bytes.now) }
{
    let (prefix, rest) = key_of(alloc, bytes)?;
    Ok((Operation::DeletePrefix { prefix }, rest))
}

#[tactic(auto, unfolding(crate::specs::Reading::string_at))]
fn key_of(alloc: Global, bytes: &[u8]) -> Result<(Bytes, &[u8]), BatchFault>
    ensures { Gives (λ x. (x.0, x.1.now)) result (string_at w16 bytes.now) }
{
    let (len, rest) = u16_at(bytes)?;
    let len = len as usize;
    if rest.len() < len {
        return Err(BatchFault::Malformed);
    }
    let (key, rest) = rest.split_at(len);
    Ok((Bytes::of(alloc, key)?, rest))
}

#[tactic(auto, unfolding(crate::specs::Reading::string_at))]
fn value_of(alloc: Global, bytes: &[u8]) -> Result<(Bytes, &[u8]), BatchFault>
    ensures { Gives (λ x. (x.0, x.1.now)) result (string_at w32 bytes.now) }
{
    let (len, rest) = u32_at(bytes)?;
    let len = len as usize;
    if rest.len() < len {
        return Err(BatchFault::Malformed);
    }
    let (value, rest) = rest.split_at(len);
    Ok((Bytes::of(alloc, value)?, rest))
}

fn u16_at(bytes: &[u8]) -> Result<(u16, &[u8]), BatchFault>
    ensures { Gives (λ x. (x.0, x.1.now)) result (number_at w16 bytes.now) }
{
    if bytes.len() < 2 {
        return Err(BatchFault::Malformed);
    }
    let (front, rest) = bytes.split_at(2);
    Ok((u16::from_be_bytes([front[0], front[1]]), rest))
}

fn u32_at(bytes: &[u8]) -> Result<(u32, &[u8]), BatchFault>
    ensures { Gives (λ x. (x.0, x.1.now)) result (number_at w32 bytes.now) }
{
    if bytes.len() < 4 {
        return Err(BatchFault::Malformed);
    }
    let (front, rest) = bytes.split_at(4);
    let number = u32::from_be_bytes([front[0], front[1], front[2], front[3]]);
    Ok((number, rest))
}

/// Whether each operation may stand where it stands.
fn is_in_order(operations: &[Operation]) -> bool
    ensures { result ≡ in_order operations.now }
{
    let mut rest = operations;
    'pairs: while let Some((first, others)) = rest.split_first() {
        if !may_precede(first, others) {
            return false;
        }
        rest = others;
    }
    true
}

fn may_precede(operation: &Operation, others: &[Operation]) -> bool
    ensures { result ≡ may_precede operation.now others.now }
{
    match others.first() {
        Some(next) => !next.comes_before(operation),
        None => true,
    }
}
