//! The query of a view, and the words that may stand before VIEW, each rule read by a function of its own.
#![tactic(auto)]

mod items;
mod query;
mod sources;
mod words;

pub use query::{select, select_words};
pub use words::view_words;
