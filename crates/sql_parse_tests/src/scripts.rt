//! Scripts: where they are cut, and what they are read as.
use crate::kinds::kind_of;
use script_cut::{Item, items};
use script_read::{Script, scripts};
use sql_ast::Statement;
use std::alloc::{AllocError, Global};

/// The session lines and statements of a text.
pub fn push_items(alloc: Global, text: &str, out: &mut String) -> Result<(), AllocError> {
    let found = items(alloc, text)?;
    push_all(found.as_slice(), out)
}

fn push_all(items: &[Item], out: &mut String) -> Result<(), AllocError> {
    let mut before = " ";
    'items: for item in items {
        write!(out, "{before}{item:?}")?;
        before = "; ";
    }
    Ok(())
}

/// How many sessions an input has, and how many statements the last of them; or its first fault.
pub fn push_shape(alloc: Global, input: &[u8], out: &mut String) -> Result<(), AllocError> {
    match scripts(alloc, input) {
        Ok(found) => push_counts(found.as_slice(), out),
        Err(fault) => write!(out, " {fault:?}"),
    }
}

fn push_counts(found: &[Script], out: &mut String) -> Result<(), AllocError> {
    let last = match found {
        [] => 0,
        [.., last] => last.statements.len(),
    };
    write!(out, " {} sessions, {last} statements", found.len())
}

/// The kinds of the first two statements of an input.
pub fn push_kinds(alloc: Global, input: &[u8], out: &mut String) -> Result<(), AllocError> {
    match scripts(alloc, input) {
        Ok(found) => push_first(found.as_slice(), out),
        Err(fault) => write!(out, " {fault:?}"),
    }
}

fn push_first(found: &[Script], out: &mut String) -> Result<(), AllocError> {
    match found {
        [] => out.push_str(" no session"),
        [script, ..] => push_two(script.statements.as_slice(), out),
    }
}

fn push_two(statements: &[Statement], out: &mut String) -> Result<(), AllocError> {
    match statements {
        [first, second, ..] => write!(out, " {}, {}", kind_of(first), kind_of(second)),
        _ => out.push_str(" fewer than two"),
    }
}
