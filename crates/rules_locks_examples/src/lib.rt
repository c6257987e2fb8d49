//! The locks of statements over a small catalog, computed from the definitions.
#![tactic(auto)]

mod cases;

pub use cases::{alterations_are_locked, locks_are_judged, statements_are_locked};
