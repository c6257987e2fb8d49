//! The top call: it reads a script, answers its statements, and prints the answers.
#![tactic(auto)]

mod answer_text;
mod command;
mod complaint;
mod print;
mod run;
mod status;
mod unbuilt;

pub use command::{Command, Usage, read_words};
pub use complaint::{Complaint, ScriptKind, complaint_of};
pub use print::{PrintFault, print_history};
pub use run::ddrun;
pub use status::{Ended, Status};
pub use unbuilt::first_unbuilt;
