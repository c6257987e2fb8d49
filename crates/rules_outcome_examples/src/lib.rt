//! Statements over a small catalog, with what the definitions make of each, computed.
#![tactic(auto)]

mod numbers;
mod outcomes;

pub use numbers::numbers_are_judged;
pub use outcomes::outcomes_are_judged;
