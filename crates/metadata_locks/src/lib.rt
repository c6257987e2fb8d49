//! Metadata locks: what each session has locked, and whether it may lock more.
#![tactic(auto)]

mod conflicts;
mod held;
mod locks;
mod modes;
mod request;

pub use locks::{Locks, TryFault};
pub use request::{LockKey, Mode, Request};
