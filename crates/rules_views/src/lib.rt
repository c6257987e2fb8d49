//! Views: the columns that a view has through its sources, and the statements that show them.
#![tactic(auto)]

mod columns;
mod shown;
mod shows;

pub use shows::show_columns;
