// What a batch needs before it is done to rows.
ghost use Rattle.std.specs.Prelude.{◌≡◌, ◌+◌, ◌≤◌, ◌++◌, ◌∷◌, List, [], vec_len, vec_capacity, IfOk, OnOk};
ghost use Rattle.std.specs.VecDeque.{deque_len};
ghost use Rattle.row_store.specs.Merging.{puts_of};

use row_batch::{Bytes, Operation};
use std::alloc::{AllocError, Global};
use std::collections::VecDeque;

/// Copies of a batch's puts, and room for the rows with them.
#[derive(Drop)]
pub struct Prepared {
    pub puts: VecDeque<(Bytes, Bytes)>,
    pub room: Vec<(Bytes, Bytes)>,
}

/// Takes the memory that operations need which are done to so many rows.
pub fn prepare(
    alloc: Global,
    count: usize,
    operations: &[Operation],
) -> Result<Prepared, AllocError>
    ensures puts { IfOk result (λ prepared. prepared.puts.items ≡ puts_of operations.now) }
    ensures empty { IfOk result (λ prepared. prepared.room.items ≡ []) }
    ensures room { IfOk result (λ prepared. count + deque_len prepared.puts ≤ vec_capacity prepared.room) }
{
    let puts = puts_of(alloc, operations)?;
    let room = room_for(alloc, count, puts.len())?;
    Ok(Prepared {
        puts: VecDeque::from_vec(puts),
        room,
    })
}

/// No rows, with room for so many and more.
pub fn room_for(alloc: Global, count: usize, more: usize) -> Result<Vec<(Bytes, Bytes)>, AllocError>
    ensures empty { IfOk result (λ room. room.items ≡ []) }
    ensures room { IfOk result (λ room. count + more ≤ vec_capacity room) }
{
    match count.checked_add(more) {
        Some(all) => Vec::with_capacity(alloc, all),
        None => Err(AllocError),
    }
}

/// Copies of the puts among operations, in their order.
pub fn puts_of(alloc: Global, operations: &[Operation]) -> Result<Vec<(Bytes, Bytes)>, AllocError>
    ensures { IfOk result (λ puts. puts.items ≡ puts_of operations.now) }
{
    let mut puts = Vec::new(alloc);
    'each: for operation in operations {
        push_put(alloc, &mut puts, operation)?;
    }
    Ok(puts)
}

fn push_put(
    alloc: Global,
    puts: &mut Vec<(Bytes, Bytes)>,
    operation: &Operation,
) -> Result<(), AllocError>
    ensures { OnOk result (puts.new.items ≡ puts.old.items ++ puts_of (operation.now ∷ [])) }
{
    if let Operation::Put { key, value } = operation {
        let row = (
            Bytes::of(alloc, key.as_slice())?,
            Bytes::of(alloc, value.as_slice())?,
        );
        puts.push(row)?;
    }
    Ok(())
}
