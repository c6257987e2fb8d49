//! What a dictionary on a disk keeps while several sessions have records of file operations in flight.
#![tactic(auto)]

mod laws;

pub use laws::{
    creations_go_on, plans_go_on, records_go_on, sessions_begin_and_end, wanted_files_are_there,
};
