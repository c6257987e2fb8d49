// The bytes of a batch.
ghost use Rattle.std.specs.Prelude.{◌≡◌, ◌+◌, ◌<◌, ◌≤◌, ◌^◌, List, ◌++◌, length, take, drop, slice_get, slice_set, vec_len, vec_capacity, IfOk, IfSome};
ghost use Rattle.std.specs.List.{flat_map};
ghost use Rattle.row_batch.specs.Batches.{key_bytes, value_bytes, operation_bytes, frame, frame_head, Fits, HasRoom, PutsAsLong};

use crate::operation::Operation;
use std::alloc::{AllocError, Global};

/// How the frame of some operations begins, with room for all of it.
pub fn begin(alloc: Global, operations: &[Operation]) -> Result<Vec<u8>, AllocError>
    requires { HasRoom operations.now }
    ensures head { IfOk result (λ bytes. bytes.items ≡ frame_head operations.now) }
    ensures room { IfOk result (λ bytes. length (frame operations.now) ≤ vec_capacity bytes) }
{
    let Some(size) = size_of(operations) else {
        return Err(AllocError);
    };
    let mut bytes = Vec::with_capacity(alloc, size)?;
    push(&mut bytes, &(size as u64 - 9).to_be_bytes());
    push(&mut bytes, &(operations.len() as u32).to_be_bytes());
    Ok(bytes)
}

/// The number of bytes of a frame, unless there are too many.
fn size_of(operations: &[Operation]) -> Option<usize>
    requires { HasRoom operations.now }
    ensures { IfSome result (λ size. size ≡ length (frame operations.now)) }
{
    let mut size: usize = 13;
    'each: for operation in operations {
        size = size.checked_add(operation.size())?;
    }
    Some(size)
}

/// Writes the operations of a frame that is begun, and its closed gate, where there is room. It takes no memory.
pub fn finish(bytes: &mut Vec<u8>, operations: &[Operation])
    requires fits { HasRoom operations.now }
    requires head { bytes.old.items ≡ frame_head operations.now }
    requires room { length (frame operations.now) ≤ vec_capacity bytes.old }
    ensures { bytes.new.items ≡ frame operations.now }
{
    push_operations(bytes, operations);
    push(bytes, &[0]);
}

fn push_operations(bytes: &mut Vec<u8>, operations: &[Operation])
    requires fits { HasRoom operations.now }
    requires room { vec_len bytes.old + length (flat_map operation_bytes operations.now) ≤ vec_capacity bytes.old }
    ensures items { bytes.new.items ≡ bytes.old.items ++ flat_map operation_bytes operations.now }
    ensures capacity { vec_capacity bytes.old ≤ vec_capacity bytes.new }
{
    'each: for operation in operations {
        push_operation(bytes, operation);
    }
}

#[tactic(auto, unfolding(crate::specs::Batches::operation_bytes))]
fn push_operation(bytes: &mut Vec<u8>, operation: &Operation)
    requires fits { Fits operation.now }
    requires room { vec_len bytes.old + length (operation_bytes operation.now) ≤ vec_capacity bytes.old }
    ensures items { bytes.new.items ≡ bytes.old.items ++ operation_bytes operation.now }
    ensures capacity { vec_capacity bytes.old ≤ vec_capacity bytes.new }
{
    match operation {
        Operation::Put { key, value } => {
            push(bytes, &[1]);
            push_key(bytes, key.as_slice());
            push_value(bytes, value.as_slice());
        }
        Operation::Delete { key } => {
            push(bytes, &[2]);
            push_key(bytes, key.as_slice());
        }
        Operation::DeletePrefix { prefix } => {
            push(bytes, &[3]);
            push_key(bytes, prefix.as_slice());
        }
    }
}

fn push_key(bytes: &mut Vec<u8>, key: &[u8])
    requires short { length key.now < 2 ^ 16 }
    requires room { vec_len bytes.old + length (key_bytes key.now) ≤ vec_capacity bytes.old }
    ensures items { bytes.new.items ≡ bytes.old.items ++ key_bytes key.now }
    ensures capacity { vec_capacity bytes.old ≤ vec_capacity bytes.new }
{
    push(bytes, &(key.len() as u16).to_be_bytes());
    push(bytes, key);
}

fn push_value(bytes: &mut Vec<u8>, value: &[u8])
    requires short { length value.now < 2 ^ 32 }
    requires room { vec_len bytes.old + length (value_bytes value.now) ≤ vec_capacity bytes.old }
    ensures items { bytes.new.items ≡ bytes.old.items ++ value_bytes value.now }
    ensures capacity { vec_capacity bytes.old ≤ vec_capacity bytes.new }
{
    push(bytes, &(value.len() as u32).to_be_bytes());
    push(bytes, value);
}

/// Adds bytes where there is room.
fn push(bytes: &mut Vec<u8>, more: &[u8])
    requires { vec_len bytes.old + length more.now ≤ vec_capacity bytes.old }
    ensures items { bytes.new.items ≡ bytes.old.items ++ more.now }
    ensures capacity { vec_capacity bytes.old ≤ vec_capacity bytes.new }
{
    if bytes.extend_from_slice(more).is_err() {
        unreachable!();
    }
}

/// Writes another key and another value over those of a put in the frame of these operations.
pub fn rewrite_put(
    bytes: &mut [u8],
    operations: &[Operation],
    place: usize,
    key: &[u8],
    value: &[u8],
)
    requires framed { bytes.old ≡ frame operations.now }
    requires room { length bytes.old < 2 ^ 64 }
    requires puts { PutsAsLong key.now value.now (slice_get operations.now place) }
    ensures { bytes.new ≡ frame (slice_set operations.now place (Operation.Put key.now value.now)) }
{
    let at = size_before(operations, place);
    overwrite(bytes, at + 15, key);
    overwrite(bytes, at + 19 + key.len(), value);
}

/// The number of bytes of the operations before a place.
fn size_before(operations: &[Operation], place: usize) -> usize
    requires within { place ≤ length operations.now }
    requires room { length (flat_map operation_bytes operations.now) < 2 ^ 64 }
    ensures { result ≡ length (flat_map operation_bytes (take place operations.now)) }
{
    let mut size = 0;
    'each: for operation in &operations[..place] {
        size += operation.size();
    }
    size
}

fn overwrite(bytes: &mut [u8], at: usize, more: &[u8])
    requires { at + length more.now ≤ length bytes.old }
    ensures { bytes.new ≡ take at bytes.old ++ (more.now ++ drop (at + length more.now) bytes.old) }
{
    bytes[at..at + more.len()].copy_from_slice(more);
}
