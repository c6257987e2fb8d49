//! A journal of batches in a file: adding one so that a crash leaves all of it or none, and reading them again.
#![tactic(auto)]

mod at;
mod gate;
mod journal;
mod opening;
mod outcome;
mod reading;

pub use journal::Journal;
pub use opening::{Opened, open_journal};
pub use outcome::{Appended, JournalFault};
