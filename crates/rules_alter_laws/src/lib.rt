//! What holds of what ALTER TABLE, CREATE INDEX and DROP INDEX come to.
#![tactic(auto)]

mod laws;

pub use laws::{actions_keep_tables, altered_tables_are_formed};
