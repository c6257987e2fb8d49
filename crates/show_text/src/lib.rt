//! The texts of SHOW CREATE TABLE, SHOW CREATE VIEW and SHOW CREATE DATABASE (MySQL 8.0 Reference Manual, 13.7.7), and those
//! of their parts that listings show too.
#![tactic(auto)]

mod columns;
mod keys;
mod tables;
mod views;

pub use columns::column_type;
pub use keys::rule_name;
pub use tables::{show_schema, show_table};
pub use views::{show_view, view_query};
