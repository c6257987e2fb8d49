//! Grammars as values: what their sentences stand for, how they are read, and the laws that hold of every grammar.
#![tactic(auto)]

mod language;

pub use language::{Language, laws};
