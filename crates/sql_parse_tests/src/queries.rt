//! Queries of views, and the words before VIEW.
use crate::faults::push_fault;
use sql_lex::{tokens, tokens_before};
use sql_parse_query::{select, view_words};
use sql_read::Input;
use std::alloc::{AllocError, Global};

/// How many items and sources the query has that begins at the token of this number, or its fault.
pub fn push_query(
    alloc: Global,
    text: &str,
    from: usize,
    out: &mut String,
) -> Result<(), AllocError> {
    let Ok(tokens) = tokens(alloc, text) else {
        return out.push_str(" no tokens");
    };
    if tokens.len() < from {
        return out.push_str(" too few tokens");
    }
    match select(alloc, tokens.as_slice(), text, from) {
        Ok(query) => write!(
            out,
            " {} items, {} sources",
            query.items.len(),
            query.sources.len()
        ),
        Err(fault) => push_fault(&fault, out),
    }
}

/// How many tokens are left behind the words that may stand before VIEW.
pub fn push_words(alloc: Global, text: &str, out: &mut String) -> Result<(), AllocError> {
    let lexed = tokens_before(alloc, text)?;
    let left = left_behind(alloc, Input::of(text, &lexed));
    write!(out, " {left:?}")
}

fn left_behind(alloc: Global, input: Input<'_>) -> Option<usize> {
    match view_words(alloc, input) {
        Ok(rest) => Some(rest.tokens.len()),
        Err(_) => None,
    }
}
