//! Statements: their kinds, their faults and their canonical texts.
ghost use Rattle.std.specs.Prelude.{◌≡◌, true, IfSome};
ghost use Rattle.sql_text.specs.Canonical.{is_spellable};
ghost use Rattle.sql_text_laws.specs.Laws.{is_bad};

use crate::faults::push_fault;
use crate::kinds::kind_of;
use dd_names::Text;
use sql_ast::Statement;
use sql_parse::{parse, statement_of};
use sql_text::text_of;
use sql_text_laws::what_is_read_is_spellable;
use std::alloc::{AllocError, Global};

/// The kind of the statement that a text is, or its fault.
pub fn push_kind(alloc: Global, text: &str, out: &mut String) -> Result<(), AllocError> {
    match parse(alloc, text) {
        Ok(statement) => write!(out, " {}", kind_of(&statement)),
        Err(fault) => push_fault(&fault, out),
    }
}

fn is_bad(statement: &Statement) -> bool
    ensures { result ≡ is_bad statement.now }
{
    matches!(statement, Statement::Bad(_))
}

// The statement that a text is, if it is one.
fn sentence(alloc: Global, text: &str) -> Option<Statement>
    ensures { IfSome result (λ s. is_spellable s ≡ true) }
{
    let Ok(statement) = statement_of(alloc, text) else {
        return None;
    };
    if is_bad(&statement) {
        return None;
    }
    what_is_read_is_spellable();
    Some(statement)
}

// The canonical text of the statement that a text is, if it is one.
fn canonical(alloc: Global, text: &str) -> Option<Text> {
    let statement = sentence(alloc, text)?;
    text_of(alloc, &statement).ok()
}

/// The canonical text of the statement that a text is, and whether that text is read as the same statement.
pub fn push_canonical(alloc: Global, text: &str, out: &mut String) -> Result<(), AllocError> {
    match canonical(alloc, text) {
        None => out.push_str(" none"),
        Some(found) => push_read_back(alloc, found.as_str(), out),
    }
}

fn push_read_back(alloc: Global, found: &str, out: &mut String) -> Result<(), AllocError> {
    out.push_str(" ")?;
    out.push_str(found)?;
    if !is_canonical(alloc, found) {
        return out.push_str(" and something else");
    }
    Ok(())
}

// Whether a text is the canonical text of the statement that it is.
fn is_canonical(alloc: Global, text: &str) -> bool {
    match canonical(alloc, text) {
        Some(found) => found.as_str() == text,
        None => false,
    }
}
