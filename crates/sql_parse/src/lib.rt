//! The statement that a text is, or where its first fault is. Each rule of the grammar is read by a function of its own.
#![tactic(auto)]

mod creates;
mod drops;
mod lists;
mod others;
mod shows;
mod statement;
mod tables;
mod texts;

pub use texts::{parse, statement_of};
