//! The operation of a record of the log on a disk, which may have been begun before.
#![tactic(auto)]

mod replays;

pub use replays::replay;
