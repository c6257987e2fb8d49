//! Many threads in the hall. They take turns until all are done, or are timed beside threads under a lock of std.
#![tactic(auto)]

mod crowd;
mod guest;
mod marks;
mod shows;
mod turn;
mod words;

use crate::shows::show;
use crate::words::{Ask, ask_of};
use std::rt::Env;
use std::{env, io};

fn main(rt: HostRuntime) -> io::Result<()> {
    match asked(&rt)? {
        Some(ask) => show(&rt, ask),
        None => eprintln!(rt; "usage: hall_tests crowd | hall|lock small|boxed|wide THREADS TURNS"),
    }
}

fn asked<R: Env + AllocGlobal>(rt: &R) -> io::Result<Option<Ask>> {
    let words: Vec<String> = env::args(rt)?.skip(1).collect(rt.alloc())?;
    Ok(ask_of(words.as_slice()))
}
