//! Keys and values of rows as lists of fields: the bytes of fields, and fields from their bytes.
#![tactic(auto)]

mod faults;
mod fields;
mod laws;
mod reading;
mod writing;

pub use faults::FieldFault;
pub use fields::{Field, Kind};
pub use laws::bytes_determine_fields;
pub use reading::{read_all, read_fields, read_repeated};
pub use writing::{bytes_of, push_fields};
