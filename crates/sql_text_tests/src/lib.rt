//! Pieces, statements, tables and views with their texts, on which the definitions of texts are computed; and tests of what
//! writes them.
#![tactic(auto)]

mod computed;
#[cfg(test)]
mod pieces;

pub use computed::texts_are_spelled;
