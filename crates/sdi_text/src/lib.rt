//! The SDI of a table: its definition as compact JSON, as it stands in the table's tablespace file.
#![tactic(auto)]

mod columns;
mod fault;
mod files;
mod found;
mod keys;
mod members;
mod part;
mod reading;
mod tables;
mod type_words;
mod words;

pub use fault::SdiFault;
pub use files::{file_bytes, sdi};
pub use reading::read_sdi;
