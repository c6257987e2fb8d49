//! The rows of SHOW COLUMNS, and the tables of INFORMATION_SCHEMA (MySQL 8.0 Reference Manual, 13.7.7.5 and 26.3).
#![tactic(auto)]

mod cells;
mod columns;
mod listings;
mod objects;
mod tables;

pub use columns::columns_rows;
pub use listings::information;
pub use tables::InfoTable;
