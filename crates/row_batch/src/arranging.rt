// The operations of a batch put in order.
ghost use Rattle.std.specs.Prelude.{◌≡◌, List, OnOk, OnErr};
ghost use Rattle.row_batch.specs.Order.{IsArranged};

use crate::operation::Operation;
use std::alloc::AllocError;

/// Puts operations in the order of a batch; those that tie stay as they stand. It takes n log n steps, and for want of memory
/// changes nothing.
pub fn arrange(operations: &mut Vec<Operation>) -> Result<(), AllocError>
    ensures arranged { OnOk result (IsArranged operations.old.items operations.new.items) }
    ensures err { OnErr result (operations.new.items ≡ operations.old.items) }
{
    operations.sort_by(|a, b| a.compare(b))
}
