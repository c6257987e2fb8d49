//! The rules of one column, one key and one foreign key: each is taken as a definition, or refused with the first of its faults.
#![tactic(auto)]

mod columns;
mod defaults;
mod foreign_keys;
mod index_names;
mod keys;
mod kinds;
mod parents;
mod taken_names;

pub use columns::{check_column, kept_default};
pub use foreign_keys::{
    allow_null, check_fk, has_constraint_named, is_owned_elsewhere, pair_columns,
};
pub use index_names::{is_primary_name, made_name, primary_name};
pub use keys::{check_key, check_key_among, column_named, key_columns};
pub use parents::{is_same_object, parent_of};
pub use taken_names::TakenNames;
