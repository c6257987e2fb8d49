//! CREATE TABLE: the table that it makes, or what it is refused for.
#![tactic(auto)]

mod columns;
mod constraints;
mod drafts;
mod elements;
mod foreign_keys;
mod indexes;
mod keys;
mod laws;
mod numbers;
mod ordered_keys;
mod tables;

pub use constraints::{behind, constraint_front, put_in_order};
pub use elements::own_keys;
pub use foreign_keys::{allow_columns, key_for, key_named};
pub use indexes::{are_autos_led, by_class, has_index_on, is_primary, rank, secondary_count};
pub use keys::{some_columns, with_index};
pub use laws::{made_tables_are_formed, valid_catalogs_show_formed};
pub use numbers::{greater, number_of, with_number};
pub use tables::create_table;
