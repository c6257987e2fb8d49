//! ALTER TABLE, CREATE INDEX and DROP INDEX as whole statements: what they change, or are refused for.
#![tactic(auto)]

mod changes;
mod children;
mod constraints;
mod edits;
mod names;
mod statements;

pub use statements::{alter_table, create_index, drop_index};
