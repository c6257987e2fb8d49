//! Rows under keys in a system file, which a journal of batches keeps through crashes.
#![tactic(auto)]

mod entries;
mod giving;
mod header;
mod making;
mod merging;
mod opening;
mod outcome;
mod preparing;
mod reading;
mod scanning;
mod searching;
mod store;

pub use outcome::{Committed, RowFault, RowsRefused};
pub use scanning::{Scan, Scanned};
pub use searching::{Got, Search};
pub use store::RowStore;
