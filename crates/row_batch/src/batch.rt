ghost use Rattle.std.specs.Prelude.{◌≡◌, ℕ, ◌+◌, ◌<◌, ◌^◌, true, false, List, [], ◌∷◌, ◌++◌, length, Option, position, slice_get, slice_set, IfOk, OnOk, OnErr};
ghost use Rattle.row_batch.specs.Order.{in_order, is_put_of, IsArranged};
ghost use Rattle.row_batch.specs.Batches.{IsBatch, HasRoom, batch_bytes, frame, PutsAsLong};
ghost use Rattle.row_batch.specs.Rows.{Rows, applied};
ghost use Rattle.row_batch.specs.Meaning.{made_of};
ghost use Rattle.std.specs.FinMap as finite_map;

use crate::arranging::arrange;
use crate::bytes::Bytes;
use crate::fault::BatchFault;
use crate::operation::{Operation, copies};
use crate::{reading, writing};
use std::alloc::{AllocError, Global};
use std::marker::Model;

/// Operations on rows. Deletions take effect before puts, and of the puts of a key the last counts (`made_of`). A batch keeps
/// its operations as they come until its frame is made, the bytes that a journal takes. From then on they are in order,
/// deletions, then prefix deletions, then puts, each group in key order, and take effect one after the other; it gets no more
/// operations.
#[derive(Drop)]
pub struct Batch {
    operations: Vec<Operation>,
    framed: Option<Vec<u8>>,
}

impl Model for Batch {
    ghost use Rattle.std.specs.Prelude.{is_some};
    ghost use Rattle.row_batch.specs.Batches.{BatchValue};
    ghost use Rattle.row_batch.specs.Kept.{IsKept};

    ghost Value = { BatchValue };

    ghost view = { λ b. record { operations = b.operations.items; is_framed = is_some b.framed } };

    ghost invariant = { λ b. IsKept b.operations.items b.framed };
}

impl Batch {
    /// The batch without operations.
    pub fn new(alloc: Global) -> Batch
        ensures { result ≡ record { operations = []; is_framed = false } }
    {
        Batch {
            operations: Vec::new(alloc),
            framed: None,
        }
    }

    /// The batch of these bytes, all of them.
    pub fn read(alloc: Global, bytes: &[u8]) -> Result<Batch, BatchFault>
        // What is read is a batch of these bytes, without a frame.
        ensures found { IfOk result (λ batch. IsBatch batch.operations × (bytes.now ≡ batch_bytes batch.operations) × (batch.is_framed ≡ false)) }
        // The bytes determine the batch.
        ensures only { (operations : List Operation) → IsBatch operations → bytes.now ≡ batch_bytes operations → IfOk result (λ batch. batch.operations ≡ operations) }
        ensures malformed { result ≡ Err BatchFault.Malformed → (operations : List Operation) → IsBatch operations → bytes.now ≡ batch_bytes operations → ⊥ }
    {
        let operations = reading::read(alloc, bytes)?;
        Ok(Batch {
            operations,
            framed: None,
        })
    }

    /// The operations, which are in order where the frame is made.
    pub fn operations(&self) -> &[Operation]
        ensures value { result.now ≡ self.now.operations }
        ensures room { HasRoom self.now.operations }
        ensures batch { self.now.is_framed ≡ true → IsBatch self.now.operations }
    {
        self.operations.as_slice()
    }

    /// Whether the frame is made.
    pub fn is_framed(&self) -> bool
        ensures { result ≡ self.now.is_framed }
    {
        self.framed.is_some()
    }

    /// Adds a put. For want of memory the batch stays as it is.
    pub fn put(&mut self, key: &[u8], value: &[u8]) -> Result<(), AllocError>
        requires open { self.old.is_framed ≡ false }
        requires short_key { length key.now < 2 ^ 16 }
        requires short_value { length value.now < 2 ^ 32 }
        requires room { length self.old.operations + 1 < 2 ^ 32 }
        ensures ok { OnOk result (self.new ≡ record { operations = self.old.operations ++ Operation.Put key.now value.now ∷ []; is_framed = false }) }
        ensures err { OnErr result (self.new ≡ self.old) }
    {
        let alloc = *self.operations.allocator();
        let operation = Operation::put(alloc, key, value)?;
        self.operations.push(operation)?;
        Ok(())
    }

    /// Adds a deletion. For want of memory the batch stays as it is.
    pub fn delete(&mut self, key: &[u8]) -> Result<(), AllocError>
        requires open { self.old.is_framed ≡ false }
        requires short_key { length key.now < 2 ^ 16 }
        requires room { length self.old.operations + 1 < 2 ^ 32 }
        ensures ok { OnOk result (self.new ≡ record { operations = self.old.operations ++ Operation.Delete key.now ∷ []; is_framed = false }) }
        ensures err { OnErr result (self.new ≡ self.old) }
    {
        let alloc = *self.operations.allocator();
        let operation = Operation::Delete {
            key: Bytes::of(alloc, key)?,
        };
        self.operations.push(operation)?;
        Ok(())
    }

    /// Adds a deletion of all keys that begin with a prefix. For want of memory the batch stays as it is.
    pub fn delete_prefix(&mut self, prefix: &[u8]) -> Result<(), AllocError>
        requires open { self.old.is_framed ≡ false }
        requires short_prefix { length prefix.now < 2 ^ 16 }
        requires room { length self.old.operations + 1 < 2 ^ 32 }
        ensures ok { OnOk result (self.new ≡ record { operations = self.old.operations ++ Operation.DeletePrefix prefix.now ∷ []; is_framed = false }) }
        ensures err { OnErr result (self.new ≡ self.old) }
    {
        let alloc = *self.operations.allocator();
        let operation = Operation::DeletePrefix {
            prefix: Bytes::of(alloc, prefix)?,
        };
        self.operations.push(operation)?;
        Ok(())
    }

    /// Adds the operations of another batch. For want of memory the batch stays as it is.
    pub fn add(&mut self, other: &Batch) -> Result<(), AllocError>
        requires open { self.old.is_framed ≡ false }
        requires room { length self.old.operations + length other.now.operations < 2 ^ 32 }
        ensures ok { OnOk result (self.new ≡ record { operations = self.old.operations ++ other.now.operations; is_framed = false }) }
        ensures err { OnErr result (self.new ≡ self.old) }
    {
        let alloc = *self.operations.allocator();
        let mut copies = copies(alloc, other.operations())?;
        self.operations.append(&mut copies)
    }

    /// The least place of a put of a key, which counts from 0; None exactly where there is none.
    pub fn place_of(&self, key: &[u8]) -> Option<usize>
        ensures { result ≡ position (is_put_of key.now) self.now.operations }
    {
        self.operations
            .iter()
            .position(|operation| operation.is_put_of(key))
    }

    /// Puts the operations in order and makes the frame: the bytes that a journal takes. For want of memory the batch stays as
    /// it is.
    pub fn frame(&mut self) -> Result<(), AllocError>
        ensures ok { OnOk result ((self.new.is_framed ≡ true) × IsArranged self.old.operations self.new.operations) }
        // There is one such order alone.
        ensures only { OnOk result ((operations : List Operation) → IsArranged self.old.operations operations → operations ≡ self.new.operations) }
        ensures in_order { OnOk result (in_order self.old.operations ≡ true → self.new.operations ≡ self.old.operations) }
        // In it they make of each key what they mean as they came.
        ensures same { OnOk result ((key : List ℕ) (old : Option (List ℕ)) → made_of self.new.operations key old ≡ made_of self.old.operations key old) }
        ensures means { OnOk result ((rows : Rows) (key : List ℕ) → finite_map.get (applied self.new.operations rows) key ≡ made_of self.old.operations key (finite_map.get rows key)) }
        ensures err { OnErr result (self.new ≡ self.old) }
    {
        let alloc = *self.operations.allocator();
        let mut frame = writing::begin(alloc, &self.operations)?;
        arrange(&mut self.operations)?;
        writing::finish(&mut frame, &self.operations);
        self.framed = Some(frame);
        Ok(())
    }

    /// The frame: a length of eight bytes, the batch's bytes, and a closed gate.
    pub fn framed(&self) -> &[u8]
        requires { self.now.is_framed ≡ true }
        ensures { result.now ≡ frame self.now.operations }
    {
        match &self.framed {
            Some(frame) => frame.as_slice(),
            None => unreachable!(),
        }
    }

    /// Replaces a put by one with a key and a value that are as long. Where the frame is made the order must
    /// stay, and the frame has the new put too. It takes no memory.
    pub fn set(&mut self, place: usize, key: &[u8], value: &[u8])
        requires puts { PutsAsLong key.now value.now (slice_get self.old.operations place) }
        requires order { self.old.is_framed ≡ true → in_order (slice_set self.old.operations place (Operation.Put key.now value.now)) ≡ true }
        ensures { self.new ≡ record { operations = slice_set self.old.operations place (Operation.Put key.now value.now); is_framed = self.old.is_framed } }
    {
        if let Some(frame) = &mut self.framed {
            writing::rewrite_put(frame, &self.operations, place, key, value);
        }
        self.operations[place].rewrite_put(key, value);
    }
}
