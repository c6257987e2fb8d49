//! The session lines and the statements of an input by their places, and its first fault.
#![tactic(auto)]

mod cut;
mod fault;
mod item;
mod judge;
mod moves;
mod name;

pub use cut::items;
pub use fault::ScriptFault;
pub use item::Item;
pub use judge::{MAX_SESSIONS, MAX_STATEMENT, MAX_STATEMENTS, fault_of};
pub use name::is_plain_name;
