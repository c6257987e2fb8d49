//! The small parts that many statements have, each read by a function of its own; and why a text isn't what a parser reads.
#![tactic(auto)]

mod named;
mod options;
mod parse_fault;
mod places;
mod small_words;

pub use named::{columns, names, number, object, optional_name};
pub use options::{
    at_charset, charset, charset_option, db_options, engine_option, equals, table_options,
};
pub use parse_fault::ParseFault;
pub use places::{from_token, told};
pub use small_words::{
    at_db, db, from_or_in, if_exists, if_not_exists, index_or_key, maybe_word, schema_in,
};
