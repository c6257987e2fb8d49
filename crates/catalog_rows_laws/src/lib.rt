//! Rows stand for one catalog, follow its changes, and are as they are written.
#![tactic(auto)]

mod laws;

pub use laws::{
    batches_grow, batches_grow_beside, exchanges_lead, numbers_stay_apart, rows_are_as_written,
    rows_begin, rows_determine_catalogs, rows_follow_changes,
};
