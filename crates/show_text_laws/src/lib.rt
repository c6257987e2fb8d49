//! What the text of SHOW CREATE TABLE says: it reads as a CREATE TABLE with the table's parts.
#![tactic(auto)]

mod laws;

pub use laws::{text_is_pieces, text_reads};
