//! A small value at which threads take turns in a hall: each adds its own number, and all that was added stands in one list.
#![tactic(auto)]

mod tally;
mod together;
mod turns;

pub use tally::Tally;
pub use together::count_together;
pub use turns::{mark, mark_often};
