//! The operations on tablespace files: each with its effect on what the disk reads and on what a crash may leave.
#![tactic(auto)]

mod fault;
mod files;
mod making;
mod new_file;
mod rewriting;

pub use fault::DirFault;
pub use files::{drop_file, move_file};
pub use making::make;
pub use new_file::NewFile;
pub use rewriting::write_sdi;
