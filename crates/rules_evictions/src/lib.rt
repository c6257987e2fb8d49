//! The keys that a plan changes of what others know.
#![tactic(auto)]

mod evicting;
mod laws;

pub use evicting::{Evictions, evictions_of};
pub use laws::evictions_are_enough;
