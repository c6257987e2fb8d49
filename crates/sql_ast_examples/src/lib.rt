//! Tables of texts with what they read as, each of which the definitions of tokens and grammar are computed on.
#![tactic(auto)]

mod computed;

pub use computed::examples;
