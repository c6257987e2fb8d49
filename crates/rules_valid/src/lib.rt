//! Statements keep a valid catalog valid.
#![tactic(auto)]

mod laws;

pub use laws::{
    alterations_keep_valid, empty_catalogs_are_valid, indexes_keep_valid, readings_keep_valid,
    renames_keep_validity, schemas_keep_valid, sessions_stay_named, tables_keep_valid,
};
