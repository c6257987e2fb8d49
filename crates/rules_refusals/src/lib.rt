//! The refusals of statements, a function each, named by the symbol of the error in the server.
#![tactic(auto)]

mod arguments;
mod columns;
mod foreign_keys;
mod indexes;
mod limits;
mod schemas;
mod tables;
mod views;

pub use columns::{
    bad_field_error, cant_drop_field_or_key, cant_remove_all_fields, dup_fieldname,
    invalid_default, table_must_have_columns, too_big_fieldlength, too_many_fields, wrong_auto_key,
    wrong_field_spec,
};
pub use foreign_keys::{
    fk_cannot_drop_parent, fk_cannot_open_parent, fk_column_cannot_drop,
    fk_column_cannot_drop_child, fk_column_not_null, fk_dup_name, fk_incompatible_columns,
    fk_no_index_parent, wrong_fk_def,
};
pub use indexes::{
    drop_index_fk, dup_keyname, key_column_does_not_exist, multiple_pri_key,
    primary_cant_have_null, too_long_ident, too_many_key_parts, too_many_keys,
    wrong_name_for_index,
};
pub use limits::{beyond_limit, views_too_deep};
pub use schemas::{bad_db, db_create_exists, db_drop_exists, no_db};
pub use tables::{
    bad_table, forbid_schema_change, no_such_table, nonuniq_table, table_exists,
    truncate_illegal_fk, wrong_object,
};
pub use views::{non_uniq_error, unknown_table, view_invalid, view_wrong_list};
