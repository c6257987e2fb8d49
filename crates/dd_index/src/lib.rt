//! For the children of a table and the owner of a constraint: the tables among which those are that stand there.
#![tactic(auto)]

mod keys;
mod tables_at;

pub use keys::{keys_of, stands};
pub use tables_at::TablesAt;
