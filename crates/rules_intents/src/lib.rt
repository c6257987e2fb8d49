//! What a statement's text claims of the catalog before anything is looked at.
#![tactic(auto)]

mod grips;

pub use grips::{Grip, grip_of};
