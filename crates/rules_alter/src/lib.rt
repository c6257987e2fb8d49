//! ALTER TABLE, CREATE INDEX and DROP INDEX: what they change, or are refused for.
#![tactic(auto)]

mod actions;
mod added_keys;
mod arranged;
mod changes;
mod columns;
mod defaults;
mod drops;
mod foreign_keys;
mod keys;
mod places;
mod rebuilds;
mod renames;
mod states;
mod tables;

pub use arranged::{Ranked, Standing};
pub use rebuilds::Shape;
pub use states::{Altering, Child};
pub use tables::altered;
