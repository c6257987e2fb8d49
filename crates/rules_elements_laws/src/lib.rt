//! What holds of the definitions that the rules of columns, keys and foreign keys take.
#![tactic(auto)]

mod laws;

pub use laws::{column_laws, foreign_key_laws, key_laws};
