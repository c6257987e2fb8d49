//! What a dictionary on a disk keeps through its steps and through crashes: the rows, the log of file operations, and
//! the files.
#![tactic(auto)]

mod laws;
mod meaning;

pub use laws::{
    directories_recover, files_are_accounted, histories_stay_safe, opened_stores_are_kept,
    plans_may_be_committed, steps_may_be_committed,
};
pub use meaning::Dictionary;
