//! What ALTER TABLE, CREATE INDEX and DROP INDEX come to over a small catalog, by computing the definitions.
#![tactic(auto)]

mod statements;

pub use statements::alterations_are_judged;
