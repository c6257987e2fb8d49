//! Each statement that a text in the grammar reads as has a canonical text.
#![tactic(auto)]

mod laws;

pub use laws::what_is_read_is_spellable;
