//! Answers scripts of statements, each over a catalog in memory of its own, and prints each script with its last answer.
#![tactic(auto)]

mod answers;
mod blocks;
mod made;
mod world;

use crate::blocks::answer_blocks;
use std::io;

fn main(rt: HostRuntime) -> io::Result<()> {
    let input = io::read_to_string(rt.alloc(), rt.stdin())?;
    let output = answer_blocks(rt.alloc(), input.trim_end())?;
    print!(rt; "{output}")
}
