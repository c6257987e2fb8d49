//! A hall in which threads take turns at one value, and see its list of entries grow.
#![tactic(auto)]

mod ends;
mod hall;
mod seats;
mod stands;
mod steps;
mod turn;
mod view;

pub use hall::{Hall, Line, Note, Opening, Pass, Row};
pub use stands::Stands;
pub use view::{Place, Stage, View};
