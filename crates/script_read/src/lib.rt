//! The sessions of an input with their statements, or its first fault.
#![tactic(auto)]

mod group;
mod read;
mod script;

pub use read::{MAX_INPUT, scripts};
pub use script::Script;
pub use script_cut::ScriptFault;
