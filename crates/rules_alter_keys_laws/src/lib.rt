//! What holds of the foreign keys that ALTER TABLE, CREATE INDEX and DROP INDEX leave.
#![tactic(auto)]

mod laws;

pub use laws::actions_keep_foreign_keys;
