//! The canonical text of a statement, which reads as the same statement.
#![tactic(auto)]

mod actions;
mod columns;
mod keys;
mod laws;
mod lists;
mod parts;
mod statements;
mod text;
mod texts;
mod views;

pub use laws::canonical_laws;
pub use text::text_of;
