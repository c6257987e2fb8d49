//! A dictionary that answers statements one after another over a catalog in memory, and the histories that it may make.
#![tactic(auto)]

mod decisions;
mod foresee;
mod history;
mod laws;
mod listed;
mod plain_engine;
mod settle;
mod state;

pub use decisions::{Decision, decided_over};
pub use history::{Answer, Entry, History};
pub use laws::histories_keep_validity;
pub use listed::MAX_LISTED;
pub use plain_engine::PlainEngine;
