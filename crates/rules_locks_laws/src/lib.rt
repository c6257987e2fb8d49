//! Why the locks of a check suffice: what they keep of a catalog while others commit, and how far its own changes reach.
#![tactic(auto)]

mod laws;

pub use laws::{evictions_suffice, known_locks_suffice, locks_suffice, plans_reach};
