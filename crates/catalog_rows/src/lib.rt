//! Schemas, tables and views as rows of the dictionary tables, when rows stand for a catalog, and batches of such rows.
#![tactic(auto)]

mod erasing;
mod links;
mod numbers;
mod parts;
mod putting;
mod rows;
mod tables;

pub use erasing::erase_rows;
pub use putting::{put_counter, put_rows};
