//! A disk in memory, which keeps a record of its calls and can be stopped at any moment of it.
#![tactic(auto)]

mod again;
mod calls;
mod clock;
mod disk;
mod fail;
mod files;
mod listing;
mod record;
mod replay;
mod steps;
mod stop;

pub use disk::MemoryDisk;
pub use fail::{Call, FailAt};
