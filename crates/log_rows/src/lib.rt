//! The records of the log among rows: how a batch puts them and takes them away.
#![tactic(auto)]

mod adding;
mod laws;

pub use adding::{drop_record, put_record};
pub use laws::{batches_change_logs, logs_follow_batches};
