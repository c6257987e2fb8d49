//! CREATE TABLE LIKE and TRUNCATE TABLE: what they change, or are refused for.
#![tactic(auto)]

mod edits;
mod likes;
mod truncates;

pub use likes::create_like;
pub use truncates::truncate;
