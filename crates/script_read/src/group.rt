// The items of an input as sessions.
ghost use Rattle.std.specs.Prelude.{◌≡◌, ◌∷◌, All, IfOk, MatchOption, slice_range, true};
ghost use Rattle.sql_ast.specs.Reads.{plainly_read};
ghost use Rattle.script_cut.specs.Names.{is_plain_name};
ghost use Rattle.script_cut.specs.Items.{IsItemOf, IsLine, IsStatement};
ghost use Rattle.script_read.specs.Scripts.{statements_in, script_of, sessions_in};

use crate::script::Script;
use dd_names::{List, Name, NameFault};
use script_cut::Item;
use sql_ast::Statement;
use sql_parse::statement_of;
use std::alloc::{AllocError, Global};
use std::str;

/// The statement from one place of a text to another.
fn statement_at(alloc: Global, text: &str, from: usize, to: usize) -> Result<Statement, AllocError>
    requires { IsStatement text.now from to }
    ensures { IfOk result (λ s. s ≡ plainly_read (slice_range text.now from to)) }
{
    statement_of(alloc, &text[from..to])
}

/// The statements up to the next session line.
fn statements_in(alloc: Global, text: &str, items: &[Item]) -> Result<List<Statement>, AllocError>
    requires { All (IsItemOf text.now) items.now }
    ensures { IfOk result (λ found. found ≡ statements_in text.now items.now) }
{
    let mut found = List::new(alloc);
    'items: for item in items {
        match *item {
            Item::SessionLine { .. } => return Ok(found),
            Item::Statement { from, to } => found.push(statement_at(alloc, text, from, to)?)?,
            _ => {}
        }
    }
    Ok(found)
}

/// The name from one place of a text to another.
fn name_at(alloc: Global, text: &str, from: usize, to: usize) -> Result<Name, AllocError>
    requires { IsLine text.now from to }
    ensures { IfOk result (λ name. name ≡ slice_range text.now from to) }
{
    name_of(alloc, &text.as_bytes()[from..to])
}

/// What has no other fault than want of memory.
fn as_memory(_fault: NameFault) -> AllocError
    requires { _fault ≡ NameFault.Memory }
{
    AllocError
}

/// The name that a word is.
fn name_of(alloc: Global, word: &[u8]) -> Result<Name, AllocError>
    requires { is_plain_name word.now ≡ true }
    ensures { IfOk result (λ name. name ≡ word.now) }
{
    let Ok(text) = str::from_utf8(word) else {
        unreachable!()
    };
    match Name::read(alloc, text, false) {
        Ok(name) => Ok(name),
        Err(fault) => Err(as_memory(fault)),
    }
}

/// The session of a line, with the statements behind it.
fn script_at(
    alloc: Global,
    text: &str,
    from: usize,
    to: usize,
    items: &[Item],
) -> Result<Script, AllocError>
    requires line { IsLine text.now from to }
    requires items { All (IsItemOf text.now) items.now }
    ensures { IfOk result (λ script. script ≡ script_of text.now from to items.now) }
{
    Ok(Script {
        name: name_at(alloc, text, from, to)?,
        statements: statements_in(alloc, text, items)?,
    })
}

/// The session that an item begins, with the statements behind it.
fn session_at(
    alloc: Global,
    text: &str,
    item: Item,
    rest: &[Item],
) -> Result<Option<Script>, AllocError>
    requires item { IsItemOf text.now item }
    requires rest { All (IsItemOf text.now) rest.now }
    ensures { IfOk result (λ found. MatchOption found (sessions_in text.now (item ∷ rest.now) ≡ sessions_in text.now rest.now)
        (λ script. sessions_in text.now (item ∷ rest.now) ≡ script ∷ sessions_in text.now rest.now)) }
{
    match item {
        Item::SessionLine { line: _, from, to } => {
            Ok(Some(script_at(alloc, text, from, to, rest)?))
        }
        _ => Ok(None),
    }
}

/// The sessions of an input that has these items.
pub fn sessions_in(alloc: Global, text: &str, items: &[Item]) -> Result<List<Script>, AllocError>
    requires { All (IsItemOf text.now) items.now }
    ensures { IfOk result (λ found. found ≡ sessions_in text.now items.now) }
{
    let mut found = List::new(alloc);
    let mut left = items;
    'items: while let Some((item, rest)) = left.split_first() {
        if let Some(script) = session_at(alloc, text, *item, rest)? {
            found.push(script)?;
        }
        left = rest;
    }
    Ok(found)
}
