//! A folder of the runtime's files as a disk. It tells no content.
#![tactic(auto)]

mod disk;
mod folder;
mod listing;
mod place;
mod store;

pub use disk::HostDisk;
