//! The locks that a statement asks for: those that its text says from the start, and those of what it looks at and changes.
#![tactic(auto)]

mod asked;
mod claims;
mod footprints;
mod looks;
mod plans;
mod texts;

pub use asked::Requests;
pub use claims::Claim;
pub use footprints::{Told, footprint};
pub use plans::claims_of_changes;
