//! What holds of what RENAME TABLE comes to.
#![tactic(auto)]

mod laws;

pub use laws::renamed_tables_are_formed;
