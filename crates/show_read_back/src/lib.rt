//! The text of SHOW CREATE TABLE makes the table again.
#![tactic(auto)]

mod laws;

pub use laws::tables_read_back;
