//! The errors with which a statement can be refused, as a table and as values.
#![tactic(auto)]

mod sql_error;
mod table;

pub use sql_error::SqlError;
