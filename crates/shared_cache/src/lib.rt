//! The objects that all sessions share.
#![tactic(auto)]

mod found;
mod shared;
mod slots;
mod unused;

pub use found::Found;
pub use shared::Shared;
pub use slots::Slot;
