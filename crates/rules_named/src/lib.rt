//! The objects that a statement names, and the edits that it comes to.
#![tactic(auto)]

mod answers;
mod named;

pub use answers::{add_edit, stood};
pub use named::{
    Placed, all_named, first_given, one_named, one_placed, resolved, schema_id, schema_there,
};
