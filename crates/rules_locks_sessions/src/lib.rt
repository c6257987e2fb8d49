//! Sessions that hold locks over one catalog: what each event of one leaves of the others.
#![tactic(auto)]

mod laws;

pub use laws::{session_laws, worlds_stay_sound};
