//! What each statement comes to: what it changes, lists, or is refused for.
#![tactic(auto)]

mod decided;
mod decisions;
mod laws;

pub use decided::is_decided;
pub use decisions::decide;
pub use laws::{outcome_laws, outcomes_keep_validity};
