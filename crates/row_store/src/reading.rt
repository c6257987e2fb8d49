// The rows that batches make.
ghost use Rattle.std.specs.Prelude.{◌≡◌, ◌≤◌, ◌+◌, ◌++◌, ◌∷◌, true, List, [], IsTrue, IfOk, OnOk, vec_len, vec_capacity};
ghost use Rattle.std.specs.List.{AllByRecursion, filter};
ghost use Rattle.row_batch.specs.Order.{in_order, IsArranged};
ghost use Rattle.row_batch.specs.Rows.{no_rows};
ghost use Rattle.row_journal.specs.Contents.{IsSized};
ghost use Rattle.row_journal.specs.Opening.{operations_of};
ghost use Rattle.row_store.specs.Entries.{rows_of, in_key_order};
ghost use Rattle.row_store.specs.Merging.{puts_of, put_all, kept};
ghost use Rattle.row_store.specs.Effects.{IsEffect, is_deletion};
ghost use Rattle.row_store.specs.Value.{rows_after};

use crate::merging::apply;
use crate::preparing::{Prepared, puts_of, room_for};
use row_batch::{Batch, Bytes, Operation, arrange};
use std::alloc::{AllocError, Global};
use std::collections::VecDeque;

/// What batches make of any rows: the rows that deletions name are gone, and then these are put, which stand in key order.
#[derive(Drop)]
pub struct Effect {
    gone: Vec<Operation>,
    rows: Vec<(Bytes, Bytes)>,
}

/// The rows that batches make of no rows, in their order. It halves the batches again and again, so n operations take
/// n log n steps.
pub fn rows_from(alloc: Global, batches: &[Batch]) -> Result<Vec<(Bytes, Bytes)>, AllocError>
    requires { AllByRecursion IsSized (operations_of batches.now) }
    ensures order { IfOk result (λ rows. IsTrue (in_key_order rows.items)) }
    ensures rows { IfOk result (λ rows. rows_of rows.items ≡ rows_after (operations_of batches.now) no_rows) }
{
    match effect_of(alloc, batches) {
        Ok(effect) => Ok(rows_of(effect)),
        Err(error) => Err(error),
    }
}

fn rows_of(effect: Effect) -> Vec<(Bytes, Bytes)>
    ensures { result.items ≡ effect.rows.items }
{
    let Effect { gone: _, rows } = effect;
    rows
}

fn effect_of(alloc: Global, batches: &[Batch]) -> Result<Effect, AllocError>
    requires { AllByRecursion IsSized (operations_of batches.now) }
    ensures { IfOk result (λ effect. IsEffect effect.gone.items effect.rows.items (operations_of batches.now)) }
{
    match batches {
        [] => Ok(Effect {
            gone: Vec::new(alloc),
            rows: Vec::new(alloc),
        }),
        [batch] => effect_of_one(alloc, batch.operations()),
        _ => {
            let (front, back) = batches.split_at(batches.len() / 2);
            let mut effect = effect_of(alloc, front)?;
            follow(alloc, &mut effect, effect_of(alloc, back)?)?;
            Ok(effect)
        }
    }
}

/// What the operations of one batch make.
fn effect_of_one(alloc: Global, operations: &[Operation]) -> Result<Effect, AllocError>
    ensures { IfOk result (λ effect. IsEffect effect.gone.items effect.rows.items (operations.now ∷ [])) }
{
    let gone = deletions_of(alloc, operations)?;
    let rows = rows_of_puts(alloc, operations)?;
    Ok(Effect { gone, rows })
}

/// The rows that the puts of a batch make of none.
fn rows_of_puts(alloc: Global, operations: &[Operation]) -> Result<Vec<(Bytes, Bytes)>, AllocError>
    ensures order { IfOk result (λ rows. IsTrue (in_key_order rows.items)) }
    ensures rows { IfOk result (λ rows. rows.items ≡ put_all (puts_of operations.now) []) }
{
    let puts = puts_of(alloc, operations)?;
    let mut rows = Vec::new(alloc);
    put_behind(alloc, &mut rows, puts, &[])?;
    Ok(rows)
}

/// Copies of the deletions of a batch, in order.
fn deletions_of(alloc: Global, operations: &[Operation]) -> Result<Vec<Operation>, AllocError>
    ensures { IfOk result (λ gone. IsArranged (filter is_deletion operations.now) gone.items) }
{
    let mut gone = Vec::new(alloc);
    'each: for operation in operations {
        push_deletion(alloc, &mut gone, operation)?;
    }
    arrange(&mut gone)?;
    Ok(gone)
}

fn push_deletion(
    alloc: Global,
    gone: &mut Vec<Operation>,
    operation: &Operation,
) -> Result<(), AllocError>
    ensures { OnOk result (gone.new.items ≡ gone.old.items ++ filter is_deletion (operation.now ∷ [])) }
{
    match operation {
        Operation::Put { .. } => Ok(()),
        Operation::Delete { .. } | Operation::DeletePrefix { .. } => {
            gone.push(operation.copy(alloc)?)?;
            Ok(())
        }
    }
}

/// Makes of an effect the one that has another behind it. After want of memory it isn't used.
fn follow(alloc: Global, effect: &mut Effect, next: Effect) -> Result<(), AllocError>
    requires order { IsTrue (in_key_order effect.old.rows.items) }
    requires next_order { in_order next.gone.items ≡ true }
    ensures rows { OnOk result (effect.new.rows.items ≡ put_all next.rows.items (kept next.gone.items next.gone.items effect.old.rows.items)) }
    ensures order { OnOk result (IsTrue (in_key_order effect.new.rows.items)) }
    ensures gone { OnOk result (IsArranged (effect.old.gone.items ++ next.gone.items) effect.new.gone.items) }
{
    let Effect { mut gone, rows } = next;
    put_behind(alloc, &mut effect.rows, rows, &gone)?;
    effect.gone.append(&mut gone)?;
    arrange(&mut effect.gone)
}

/// Takes away the rows that deletions name, and then puts others.
fn put_behind(
    alloc: Global,
    rows: &mut Vec<(Bytes, Bytes)>,
    puts: Vec<(Bytes, Bytes)>,
    gone: &[Operation],
) -> Result<(), AllocError>
    requires order { IsTrue (in_key_order rows.old.items) }
    requires batch { in_order gone.now ≡ true }
    ensures rows { OnOk result (rows.new.items ≡ put_all puts.items (kept gone.now gone.now rows.old.items)) }
    ensures order { OnOk result (IsTrue (in_key_order rows.new.items)) }
{
    let room = room_for(alloc, rows.len(), puts.len())?;
    let puts = VecDeque::from_vec(puts);
    apply(rows, Prepared { puts, room }, gone);
    Ok(())
}
