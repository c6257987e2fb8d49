//! Texts that are written piece by piece, with the tokens that they are read as again.
#![tactic(auto)]

mod laws;
mod write;

pub use laws::piece_laws;
pub use write::{push_digits, push_name, push_number, push_string, push_word};
