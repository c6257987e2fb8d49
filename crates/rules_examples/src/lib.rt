//! Parts of tables, and columns, keys and foreign keys as statements write them, alone and in CREATE TABLE, with what the
//! definitions make of each, computed.
#![tactic(auto)]

mod creates;
mod definitions;
mod rules;

pub use creates::tables_are_created;
pub use definitions::tables_are_judged;
pub use rules::words_are_judged;
