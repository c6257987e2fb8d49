//! Columns, keys and lists of them.
use crate::faults::push_fault;
use sql_ast::Element;
use sql_lex::{tokens, tokens_before};
use sql_parse_columns::{ColumnItem, ElementItem, element, named_column};
use sql_read::{Input, listed};
use sql_types::{ColumnWords, Literal};
use std::alloc::{AllocError, Global};

/// What the element from the second token on is, with the number of the token behind it, or why there is none.
pub fn push_element(alloc: Global, text: &str, out: &mut String) -> Result<(), AllocError> {
    let Ok(tokens) = tokens(alloc, text) else {
        return out.push_str(" no tokens");
    };
    if tokens.is_empty() {
        return out.push_str(" too few tokens");
    }
    match element(alloc, tokens.as_slice(), text, 1) {
        Ok((element, behind)) => push_read(&element, behind, out),
        Err(fault) => push_fault(&fault, out),
    }
}

fn push_read(element: &Element, behind: usize, out: &mut String) -> Result<(), AllocError> {
    match element {
        Element::Column(column) => write!(out, " column {:?} to {behind}", column.kind),
        Element::Key(key) => write!(out, " key {:?} to {behind}", key.class),
        Element::ForeignKey(key) => write!(
            out,
            " foreign key {:?} {:?} to {behind}",
            key.on_delete, key.on_update
        ),
    }
}

/// The attributes of a column and its default as it is meant.
pub fn push_column(alloc: Global, text: &str, out: &mut String) -> Result<(), AllocError> {
    let lexed = tokens_before(alloc, text)?;
    match named_column(alloc, Input::of(text, &lexed)) {
        Ok((column, _)) => push_words(&column, out),
        Err(_) => out.push_str(" no column"),
    }
}

fn push_words(column: &ColumnWords, out: &mut String) -> Result<(), AllocError> {
    let marks = (column.nullable, column.auto, column.unique, column.primary);
    write!(out, " {marks:?} {}", default_of(column))
}

fn default_of(column: &ColumnWords) -> &str {
    match &column.default {
        None => "none",
        Some(Literal::Null) => "NULL",
        Some(Literal::Number(number)) => number.as_str(),
        Some(Literal::Str(text)) => text.as_str(),
    }
}

/// How many elements there are in a list, and how many columns.
pub fn push_lists(alloc: Global, text: &str, out: &mut String) -> Result<(), AllocError> {
    let lexed = tokens_before(alloc, text)?;
    let elements = elements_in(alloc, Input::of(text, &lexed));
    let columns = columns_in(alloc, Input::of(text, &lexed));
    write!(out, " {elements:?} {columns:?}")
}

fn elements_in(alloc: Global, input: Input<'_>) -> Option<usize> {
    match listed::<ElementItem>(alloc, input) {
        Ok((elements, _)) => Some(elements.len()),
        Err(_) => None,
    }
}

fn columns_in(alloc: Global, input: Input<'_>) -> Option<usize> {
    match listed::<ColumnItem>(alloc, input) {
        Ok((columns, _)) => Some(columns.len()),
        Err(_) => None,
    }
}
