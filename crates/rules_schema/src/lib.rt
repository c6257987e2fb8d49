//! Statements on schemas, on sessions and on dropped tables: what they change, list, or are refused for.
#![tactic(auto)]

mod children;
mod drops;
mod listings;
mod name_sets;
mod schemas;
mod sessions;

pub use children::{children_seen, constraint_on};
pub use drops::drop_table;
pub use listings::{show_databases, show_tables};
pub use schemas::{create_database, drop_database};
pub use sessions::{set_tries, use_schema};
