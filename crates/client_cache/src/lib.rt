//! What a session holds of the shared cache, and what its statement has made and dropped.
#![tactic(auto)]

mod absence;
mod client;
mod held;

pub use client::Client;
