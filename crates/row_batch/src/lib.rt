//! Batches of operations on rows: their order, their bytes, and what they make of a map of rows.
#![tactic(auto)]

mod arranging;
mod batch;
mod bytes;
mod fault;
mod operation;
mod reading;
mod writing;

pub use arranging::arrange;
pub use batch::Batch;
pub use bytes::Bytes;
pub use fault::BatchFault;
pub use operation::{Operation, copies};
