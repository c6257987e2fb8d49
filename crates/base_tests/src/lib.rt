//! Names, paths, numbers and errors with what the definitions make of each, computed, and names and keys as they are at
//! run time.
#![tactic(auto)]

mod judged;
#[cfg(test)]
mod names;

pub use judged::{names_are_judged, texts_are_judged};
