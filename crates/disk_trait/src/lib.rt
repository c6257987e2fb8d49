//! A disk of files: its calls, what it reads, and what a crash may leave of it.
#![tactic(auto)]

mod calls;
mod path;
mod through;

pub use calls::{Disk, Failed, ListFault};
pub use path::PathText;
pub use through::write_through;
