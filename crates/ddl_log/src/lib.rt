//! The log of file operations that are still to be done: its records, their bytes, and what they do to a directory.
#![tactic(auto)]

mod fault;
mod laws;
mod reading;
mod records;
mod writing;

pub use fault::LogFault;
pub use laws::{one_record, record_among_others, several_records};
pub use reading::decode;
pub use records::{Kind, LogRecord};
pub use writing::encode;
