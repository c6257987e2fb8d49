//! RENAME TABLE: what it changes, or is refused for.
#![tactic(auto)]

mod all_pairs;
mod child_names;
mod children;
mod constraints;
mod foreign_keys;
mod left;
mod objects;
mod one_object;
mod ordered;
mod overlay;
mod owners;
mod pairs;
mod statement;

pub use foreign_keys::{all_renamed, in_order, refuse_taken, with_parents};
pub use statement::rename;
