//! Which session is loading which key.
#![tactic(auto)]

mod misses;

pub use misses::{Begun, Misses, Ticket};
