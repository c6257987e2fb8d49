//! What is asked of cases.
use crate::actions::{push_action, push_actions};
use crate::bytes::{bytes_of, number_of};
use crate::columns::{push_column, push_element, push_lists};
use crate::queries::{push_query, push_words};
use crate::scripts::{push_items, push_kinds, push_shape};
use crate::statements::{push_canonical, push_kind};
use crate::tokens::{push_meaning, push_tokens};
use std::alloc::{AllocError, Global};

/// The answer to a question of a case. It begins with a space, unless it is empty.
pub fn push_answer(
    alloc: Global,
    question: &str,
    case: &str,
    out: &mut String,
) -> Result<(), AllocError> {
    let bytes = bytes_of(alloc, case)?;
    match str::from_utf8(bytes.as_slice()) {
        Ok(text) => push_of_text(alloc, question, text, out),
        Err(_) => push_of_bytes(alloc, question, bytes.as_slice(), out),
    }
}

fn push_of_text(
    alloc: Global,
    question: &str,
    text: &str,
    out: &mut String,
) -> Result<(), AllocError> {
    match question {
        "tokens" => push_tokens(alloc, text, out),
        "meaning" => push_meaning(alloc, text, out),
        "kind" => push_kind(alloc, text, out),
        "canonical" => push_canonical(alloc, text, out),
        "cut" => push_items(alloc, text, out),
        "kinds" => push_kinds(alloc, text.as_bytes(), out),
        "query" => push_numbered(alloc, text, out),
        _ => push_of_rule(alloc, question, text, out),
    }
}

fn push_of_rule(
    alloc: Global,
    question: &str,
    text: &str,
    out: &mut String,
) -> Result<(), AllocError> {
    match question {
        "actions" => push_actions(alloc, text, out),
        "action" => push_action(alloc, text, out),
        "element" => push_element(alloc, text, out),
        "column" => push_column(alloc, text, out),
        "lists" => push_lists(alloc, text, out),
        "view" => push_words(alloc, text, out),
        _ => push_of_bytes(alloc, question, text.as_bytes(), out),
    }
}

fn push_of_bytes(
    alloc: Global,
    question: &str,
    bytes: &[u8],
    out: &mut String,
) -> Result<(), AllocError> {
    match question {
        "script" => push_shape(alloc, bytes, out),
        _ => out.push_str(" no question"),
    }
}

// A query behind the number of the token at which reading begins.
fn push_numbered(alloc: Global, case: &str, out: &mut String) -> Result<(), AllocError> {
    let (number, text) = case.split_once(' ').unwrap_or((case, ""));
    push_query(alloc, text, number_of(number), out)
}
