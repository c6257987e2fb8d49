//! The locks that a statement's check asks for, and what they cover.
#![tactic(auto)]

mod laws;

pub use laws::{locks_cover, told_in_order};
