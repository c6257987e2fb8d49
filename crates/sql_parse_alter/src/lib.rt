//! The actions of ALTER TABLE, each rule read by a function of its own.
#![tactic(auto)]

mod action;
mod added;
mod changed;
mod dropped;
mod front;

pub use action::{ActionItem, action_words};
pub use front::actions;
