//! Answers cases of texts, by what is asked of them, and prints each case with its answer.
#![tactic(auto)]

mod actions;
mod bytes;
mod cases;
mod columns;
mod faults;
mod kinds;
mod queries;
mod questions;
mod scripts;
mod statements;
mod tokens;

use crate::cases::answer_cases;
use std::io;

fn main(rt: HostRuntime) -> io::Result<()> {
    let input = io::read_to_string(rt.alloc(), rt.stdin())?;
    let output = answer_cases(rt.alloc(), input.trim_end())?;
    print!(rt; "{output}")
}
