//! The locks that a statement asks for, by what its client was told, are those of its check, and suffice.
#![tactic(auto)]

mod laws;

pub use laws::{clients_know, footprints_are_locks, looks_go_ahead};
