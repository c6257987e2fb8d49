//! What holds of the grammar of statements, computed.
#![tactic(auto)]

mod laws;

pub use laws::{statement_laws, what_is_read_says_names};
