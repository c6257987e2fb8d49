ghost use Rattle.std.specs.Prelude.{◌≡◌, ◌<◌, ◌^◌, length, IfOk};
ghost use Rattle.row_batch.specs.Order.{rank, key_of, operation_cmp, comes_before, is_put_of};
ghost use Rattle.row_batch.specs.Batches.{operation_bytes, PutsAsLong};

use crate::bytes::Bytes;
use std::alloc::{AllocError, Global};
use std::cmp::Ordering;

/// A change of a map of rows.
#[derive(Drop)]
pub enum Operation {
    /// The row of a key is gone, if there is one.
    Delete { key: Bytes },
    /// The rows whose keys begin with a prefix are gone.
    DeletePrefix { prefix: Bytes },
    /// The row of a key has this value, whether there was one or not.
    Put { key: Bytes, value: Bytes },
}

impl Operation {
    /// A put of copies of a key and a value.
    pub(crate) fn put(alloc: Global, key: &[u8], value: &[u8]) -> Result<Operation, AllocError>
        ensures { IfOk result (λ made. made ≡ Operation.Put key.now value.now) }
    {
        Ok(Operation::Put {
            key: Bytes::of(alloc, key)?,
            value: Bytes::of(alloc, value)?,
        })
    }

    /// The key, or the prefix of keys.
    pub fn key(&self) -> &[u8]
        ensures { result.now ≡ key_of self.now }
    {
        match self {
            Operation::Delete { key } | Operation::Put { key, value: _ } => key.as_slice(),
            Operation::DeletePrefix { prefix } => prefix.as_slice(),
        }
    }

    /// A copy of the operation.
    pub fn copy(&self, alloc: Global) -> Result<Operation, AllocError>
        ensures { IfOk result (λ copy. copy ≡ self.now) }
    {
        match self {
            Operation::Delete { key } => Ok(Operation::Delete {
                key: Bytes::of(alloc, key.as_slice())?,
            }),
            Operation::DeletePrefix { prefix } => Ok(Operation::DeletePrefix {
                prefix: Bytes::of(alloc, prefix.as_slice())?,
            }),
            Operation::Put { key, value } => {
                Operation::put(alloc, key.as_slice(), value.as_slice())
            }
        }
    }

    /// Whether a batch has the operation before the other.
    pub fn comes_before(&self, other: &Operation) -> bool
        ensures { result ≡ comes_before self.now other.now }
    {
        self.compare(other).is_lt()
    }

    /// The order of a batch: deletions, prefix deletions, puts, each by their keys.
    pub(crate) fn compare(&self, other: &Operation) -> Ordering
        ensures { result ≡ operation_cmp self.now other.now }
    {
        self.rank()
            .cmp(&other.rank())
            .then(self.key().cmp(other.key()))
    }

    /// Whether it puts a value under a key.
    pub fn is_put_of(&self, key: &[u8]) -> bool
        ensures { result ≡ is_put_of key.now self.now }
    {
        match self {
            Operation::Put { key: own, value: _ } => own.as_slice() == key,
            Operation::Delete { .. } | Operation::DeletePrefix { .. } => false,
        }
    }

    fn rank(&self) -> u8
        ensures { result ≡ rank self.now }
    {
        match self {
            Operation::Delete { .. } => 0,
            Operation::DeletePrefix { .. } => 1,
            Operation::Put { .. } => 2,
        }
    }

    /// Writes another key and another value in the place of those of a put.
    pub(crate) fn rewrite_put(&mut self, key: &[u8], value: &[u8])
        requires { PutsAsLong key.now value.now (Some self.old) }
        ensures { self.new ≡ Operation.Put key.now value.now }
    {
        match self {
            Operation::Put {
                key: own_key,
                value: own_value,
            } => {
                own_key.overwrite(key);
                own_value.overwrite(value);
            }
            Operation::Delete { .. } | Operation::DeletePrefix { .. } => unreachable!(),
        }
    }

    /// The number of bytes of the operation in a batch.
    #[tactic(auto, unfolding(crate::specs::Batches::operation_bytes))]
    pub(crate) fn size(&self) -> usize
        requires { length (operation_bytes self.now) < 2 ^ 64 }
        ensures { result ≡ length (operation_bytes self.now) }
    {
        match self {
            Operation::Delete { key } | Operation::DeletePrefix { prefix: key } => {
                3 + key.as_slice().len()
            }
            Operation::Put { key, value } => 7 + key.as_slice().len() + value.as_slice().len(),
        }
    }
}

/// Copies of operations, in their order.
pub fn copies(alloc: Global, operations: &[Operation]) -> Result<Vec<Operation>, AllocError>
    ensures { IfOk result (λ copies. copies.items ≡ operations.now) }
{
    let mut copies = Vec::new(alloc);
    'each: for operation in operations {
        copies.push(operation.copy(alloc)?)?;
    }
    Ok(copies)
}
