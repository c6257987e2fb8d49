//! What SHOW CREATE DATABASE, SHOW CREATE TABLE and SHOW CREATE VIEW list, or are refused for.
#![tactic(auto)]

mod listings;
mod shows;

pub use shows::{show_create_database, show_create_table, show_create_view};
