//! What the listings of INFORMATION_SCHEMA and SHOW COLUMNS have, said of catalogs.
#![tactic(auto)]

mod laws;

pub use laws::{columns_have_rows, listings_are_whole};
