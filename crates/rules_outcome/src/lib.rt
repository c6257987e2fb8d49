//! What is decided of a statement: what it changes, lists, or is refused for.
#![tactic(auto)]

mod decided;

pub use decided::{After, Decided, Edit, Edits};
