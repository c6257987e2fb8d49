//! Columns and keys of a table, each rule read by a function of its own.
#![tactic(auto)]

mod attribute;
mod column;
mod elements;
mod foreign_key;
mod front;
mod keys;
mod types;
mod value;
mod word_value;

pub use column::named_column;
pub use elements::{ColumnItem, ElementItem, element_words};
pub use front::element;
pub use keys::{at_index_or_key, key};
pub use value::literal;
