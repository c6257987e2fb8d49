// The first fault of an input, by its items.
ghost use Rattle.std.specs.Prelude.{◌≡◌, ◌∷◌, ◌++◌, ◌-◌, ◌<◌, ◌^◌, ℕ, List, [], All, IfOk, MatchOption, map, length, None, Some};
ghost use Rattle.std.specs.List.{list_any};
ghost use Rattle.std.specs.Str.{bytes_eq};
ghost use Rattle.script_cut.specs.Items.{IsItemOf};
ghost use Rattle.script_cut.specs.Faults.{is_among, line_fault, statement_fault, or_else, item_fault, names_behind, count_behind, fault_of};

use crate::fault::ScriptFault;
use crate::item::Item;
use std::alloc::{AllocError, Global};

/// The greatest number of sessions of an input.
pub const MAX_SESSIONS: usize = 32;

/// The greatest number of statements of a session.
pub const MAX_STATEMENTS: usize = 100_000;

/// The greatest number of bytes of a statement.
pub const MAX_STATEMENT: usize = 1_048_576;

fn has_name(names: &[&[u8]], name: &[u8]) -> bool
    ensures { result ≡ list_any (λ other. bytes_eq name.now other.now) names.now }
{
    names.iter().any(|other| name == *other)
}

fn is_among(name: &[u8], names: &[&[u8]]) -> bool
    ensures { result ≡ is_among name.now (map (λ n. n.now) names.now) }
{
    has_name(names, name)
}

#[tactic(auto, unfolding(crate::specs::Faults::line_fault))]
fn line_fault(names: &[&[u8]], line: usize, name: &[u8]) -> Option<ScriptFault>
    ensures { result ≡ line_fault (map (λ n. n.now) names.now) line name.now }
{
    if is_among(name, names) {
        return Some(ScriptFault::Repeated { at: line });
    }
    if names.len() >= MAX_SESSIONS {
        return Some(ScriptFault::Limit { at: line });
    }
    None
}

#[tactic(auto, unfolding(crate::specs::Faults::statement_fault))]
fn statement_fault(sessions: usize, count: usize, from: usize, bytes: usize) -> Option<ScriptFault>
    ensures { result ≡ statement_fault sessions count from bytes }
{
    if sessions == 0 {
        return Some(ScriptFault::NoSession { at: from });
    }
    if count >= MAX_STATEMENTS || bytes > MAX_STATEMENT {
        return Some(ScriptFault::Limit { at: from });
    }
    None
}

/// The fault of a statement that the input's end cuts.
fn cut_fault(sessions: usize, count: usize, from: usize, bytes: usize) -> ScriptFault
    ensures { or_else (statement_fault sessions count from bytes) (Some (ScriptFault.Unended from)) ≡ Some result }
{
    match statement_fault(sessions, count, from, bytes) {
        Some(fault) => fault,
        None => ScriptFault::Unended { at: from },
    }
}

#[tactic(auto, unfolding(crate::specs::Faults::item_fault))]
fn item_fault(text: &[u8], names: &[&[u8]], count: usize, item: Item) -> Option<ScriptFault>
    requires { IsItemOf text.now item }
    ensures { result ≡ item_fault text.now (map (λ n. n.now) names.now) count item }
{
    match item {
        Item::SessionLine { line, from, to } => line_fault(names, line, &text[from..to]),
        Item::BadLine { line } => Some(ScriptFault::BadName { at: line }),
        Item::Statement { from, to } => statement_fault(names.len(), count, from, to - from),
        Item::CutStatement { from } => Some(cut_fault(
            names.len(),
            count,
            from,
            text.len().saturating_sub(from),
        )),
        Item::CutComment { at } => Some(ScriptFault::Unended { at }),
    }
}

/// The name of a session line.
fn name_in(text: &[u8], item: Item) -> Option<&[u8]>
    requires { IsItemOf text.now item }
    ensures { (names : List (List ℕ)) → MatchOption result (names_behind text.now names item ≡ names) (λ name. names_behind text.now names item ≡ names ++ name.now ∷ []) }
{
    match item {
        Item::SessionLine { line: _, from, to } => Some(&text[from..to]),
        _ => None,
    }
}

/// How many statements the last session has behind an item.
fn count_behind(count: usize, item: Item) -> usize
    requires { count < 2 ^ 62 }
    ensures { result ≡ count_behind count item }
{
    match item {
        Item::SessionLine { .. } => 0,
        _ => count + 1,
    }
}

/// The first fault of an input that has these items, if it has one.
pub fn fault_of(
    alloc: Global,
    text: &[u8],
    items: &[Item],
) -> Result<Option<ScriptFault>, AllocError>
    requires { All (IsItemOf text.now) items.now }
    ensures { IfOk result (λ fault. fault ≡ fault_of text.now items.now) }
{
    let mut names: Vec<&[u8]> = Vec::new(alloc);
    let mut count: usize = 0;
    'items: for item in items {
        let fault = item_fault(text, &names, count, *item);
        if fault.is_some() {
            return Ok(fault);
        }
        count = count_behind(count, *item);
        if let Some(name) = name_in(text, *item) {
            names.push(name)?;
        }
    }
    Ok(None)
}
