//! The blocks of the input, between two of which an empty line stands: scripts, what they begin with, and headings.
use crate::made::{makes_table, makes_view};
use crate::world::World;
use std::alloc::{AllocError, Global};

/// What is done before each script that follows.
#[derive(Clone, Copy)]
struct Beginning<'a> {
    statements: &'a str,
    /// Whether a view is made besides.
    view: bool,
}

/// All blocks, and behind each script its last answer.
pub fn answer_blocks(alloc: Global, input: &str) -> Result<String, AllocError> {
    let mut out = String::new(alloc);
    let mut begin = Beginning {
        statements: "",
        view: false,
    };
    'blocks: for block in input.split("\n\n") {
        begin = beginning_behind(begin, block);
        push_block(alloc, begin, block, &mut out)?;
    }
    Ok(out)
}

// The beginning that the block sets, or the one before it.
fn beginning_behind<'a>(before: Beginning<'a>, block: &'a str) -> Beginning<'a> {
    if let Some(statements) = block.strip_prefix(".begin\n") {
        return Beginning {
            statements,
            view: false,
        };
    }
    if let Some(statements) = block.strip_prefix(".begin with a view\n") {
        return Beginning {
            statements,
            view: true,
        };
    }
    before
}

fn push_block(
    alloc: Global,
    begin: Beginning<'_>,
    block: &str,
    out: &mut String,
) -> Result<(), AllocError> {
    out.push_str(block)?;
    if !is_heading(block) {
        out.push_str("\n-> ")?;
        push_answer(alloc, begin, block, out)?;
    }
    out.push_str("\n\n")
}

fn is_heading(block: &str) -> bool {
    block.starts_with('#') || block.starts_with(".begin")
}

fn push_answer(
    alloc: Global,
    begin: Beginning<'_>,
    block: &str,
    out: &mut String,
) -> Result<(), AllocError> {
    if let Some(count) = block.strip_prefix(".columns ") {
        return push_made(makes_table(alloc, number_of(count)), out);
    }
    if let Some(count) = block.strip_prefix(".sources ") {
        return push_made(makes_view(alloc, number_of(count)), out);
    }
    push_script(alloc, begin, block, out)
}

fn push_made(made: Result<bool, AllocError>, out: &mut String) -> Result<(), AllocError> {
    out.push_str(if made? { "made" } else { "refused" })
}

fn push_script(
    alloc: Global,
    begin: Beginning<'_>,
    script: &str,
    out: &mut String,
) -> Result<(), AllocError> {
    let mut world = World::new(alloc);
    push_last(&mut world, begin, script, out)
}

fn push_last(
    world: &mut World,
    begin: Beginning<'_>,
    script: &str,
    out: &mut String,
) -> Result<(), AllocError> {
    world.answer_all(begin.statements)?;
    if begin.view {
        world.make_view()?;
    }
    answer_script(world, script)?;
    out.push_str(world.last())
}

// Answers a script in which one piece in brackets may stand so many times.
fn answer_script(world: &mut World, script: &str) -> Result<(), AllocError> {
    match script.split_once('[') {
        None => world.answer_all(script),
        Some((front, rest)) => answer_long(world, front, rest),
    }
}

fn answer_long(world: &mut World, front: &str, rest: &str) -> Result<(), AllocError> {
    let (times, rest) = rest.split_once(' ').unwrap_or((rest, ""));
    let (piece, back) = rest.split_once(']').unwrap_or((rest, ""));
    let text = long_text(world.alloc(), front, number_of(times), piece, back)?;
    world.answer(text.as_str())
}

fn long_text(
    alloc: Global,
    front: &str,
    times: usize,
    piece: &str,
    back: &str,
) -> Result<String, AllocError> {
    let mut text = String::from_str(alloc, front)?;
    'pieces: for number in 0..times {
        push_piece(&mut text, piece, number)?;
    }
    text.push_str(back)?;
    Ok(text)
}

// A piece, with its number in the place of `#`.
fn push_piece(text: &mut String, piece: &str, number: usize) -> Result<(), AllocError> {
    match piece.split_once('#') {
        None => text.push_str(piece),
        Some((front, back)) => write!(text, "{front}{number}{back}"),
    }
}

fn number_of(digits: &str) -> usize {
    digits.parse::<usize>().unwrap_or(0)
}
