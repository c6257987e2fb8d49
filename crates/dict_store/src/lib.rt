//! A dictionary on a disk: its rows, the log of file operations, and the files, so that what each crash leaves recovers.
#![tactic(auto)]

mod batches;
mod fault;
mod paths;
mod store;

pub use fault::{NoSpaceId, StoreFault};
pub use store::Store;
