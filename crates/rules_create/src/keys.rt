// The keys that a statement defines (MySQL 8.0 Reference Manual, 13.1.20).
ghost use Rattle.std.specs.Prelude.{◌≡◌, ◌||◌, map, IfOk, OnOk};
ghost use Rattle.std.specs.List.{flat_map, list_any};
ghost use Rattle.std.specs.Str.{bytes_eq};
ghost use Rattle.dd_catalog.specs.WalkLaws.{Look};
ghost use Rattle.dd_catalog.specs.Walks.{run, over};
ghost use Rattle.dd_catalog.specs.Follow.{Follows};
ghost use Rattle.rules_create.specs.Tables.{column_in, key_in, all_keys, is_null, is_true, is_null_written, never_null, with_index, some_columns, one_key};
ghost use Rattle.rules_create.specs.Made.{over_each, own_keys_in, is_null_of, added_index};
ghost use Rattle.rules_create.specs.Drafts.{IsDraft};

use crate::drafts::{Draft, add_index, key_checked};
use crate::elements::keys_of_columns;
use crate::indexes::is_primary;
use dd_catalog::Stop;
use dd_definitions::{ColumnDef, IndexDef, TableParts};
use dd_names::{List, Name, TryCopy};
use sql_ast::Element;
use sql_types::{ColumnWords, KeyWords, Literal};
use std::alloc::{AllocError, Global};

/// The table with all keys behind its indexes: those that columns say, and then the others.
#[tactic(auto, using(crate::proofs::Flat::over_append, crate::proofs::Flat::own_keys_flat))]
pub(crate) fn add_keys(alloc: Global, draft: &mut Draft, elements: &[Element]) -> Result<(), Stop>
    requires { IsDraft draft.old }
    ensures exact { (look : Look) → Follows (λ _. draft.new.parts) result (run look (over (one_key (flat_map column_in elements.now)) draft.old.parts (all_keys elements.now))) }
    ensures draft { OnOk result (IsDraft draft.new) }
{
    add_own_keys(alloc, draft, elements)?;
    add_written_keys(alloc, draft, elements)
}

fn add_own_keys(alloc: Global, draft: &mut Draft, elements: &[Element]) -> Result<(), Stop>
    requires { IsDraft draft.old }
    ensures exact { (look : Look) → Follows (λ _. draft.new.parts) result (run look (over (one_key (flat_map column_in elements.now)) draft.old.parts (flat_map own_keys_in elements.now))) }
    ensures draft { OnOk result (IsDraft draft.new) }
{
    let keys = keys_of_columns(alloc, elements)?;
    each_key(alloc, draft, elements, keys.as_slice())
}

fn each_key(
    alloc: Global,
    draft: &mut Draft,
    elements: &[Element],
    keys: &[KeyWords],
) -> Result<(), Stop>
    requires { IsDraft draft.old }
    ensures exact { (look : Look) → Follows (λ _. draft.new.parts) result (run look (over (one_key (flat_map column_in elements.now)) draft.old.parts keys.now)) }
    ensures draft { OnOk result (IsDraft draft.new) }
{
    'keys: for key in keys {
        one_key(alloc, draft, elements, key)?;
    }
    Ok(())
}

fn add_written_keys(alloc: Global, draft: &mut Draft, elements: &[Element]) -> Result<(), Stop>
    requires { IsDraft draft.old }
    ensures exact { (look : Look) → Follows (λ _. draft.new.parts) result (run look (over (one_key (flat_map column_in elements.now)) draft.old.parts (flat_map key_in elements.now))) }
    ensures draft { OnOk result (IsDraft draft.new) }
{
    'elements: for element in elements {
        key_if(alloc, draft, elements, element)?;
    }
    Ok(())
}

/// The key of an element, where it is one.
#[tactic(auto, using(crate::proofs::Flat::over_one))]
fn key_if(
    alloc: Global,
    draft: &mut Draft,
    elements: &[Element],
    element: &Element,
) -> Result<(), Stop>
    requires { IsDraft draft.old }
    ensures exact { (look : Look) → Follows (λ _. draft.new.parts) result (run look (over_each (one_key (flat_map column_in elements.now)) key_in draft.old.parts element.now)) }
    ensures draft { OnOk result (IsDraft draft.new) }
{
    match element {
        Element::Key(words) => one_key(alloc, draft, elements, words),
        _ => Ok(()),
    }
}

/// The table with one key more. For a primary key, a column for which NULL or DEFAULT NULL is written: 1171.
#[tactic(auto, using(dd_catalog::specs::WalkLaws::run_bind), unfolding(crate::specs::Tables::one_key))]
fn one_key(
    alloc: Global,
    draft: &mut Draft,
    elements: &[Element],
    words: &KeyWords,
) -> Result<(), Stop>
    requires { IsDraft draft.old }
    ensures exact { (look : Look) → Follows (λ _. draft.new.parts) result (run look (one_key (flat_map column_in elements.now) draft.old.parts words.now)) }
    ensures draft { OnOk result (IsDraft draft.new) }
{
    some_columns(alloc, words.columns.as_slice())?;
    let index = key_checked(alloc, draft, words)?;
    add_key(alloc, draft, elements, index)?;
    Ok(())
}

/// The table with the index, unless NULL is written for a column of a primary key.
#[tactic(auto, using(dd_catalog::specs::WalkLaws::run_bind))]
fn add_key(
    alloc: Global,
    draft: &mut Draft,
    elements: &[Element],
    index: IndexDef,
) -> Result<(), Stop>
    requires { IsDraft draft.old }
    ensures exact { (look : Look) → Follows (λ _. draft.new.parts) result (run look (added_index (flat_map column_in elements.now) draft.old.parts index)) }
    ensures draft { OnOk result (IsDraft draft.new) }
{
    if is_primary(&index) && is_any_null_written(elements, index.columns.as_slice()) {
        return Err(rules_refusals::primary_cant_have_null(alloc));
    }
    add_index(alloc, draft, index)?;
    Ok(())
}

/// Refuses a key without columns.
pub fn some_columns(alloc: Global, names: &[Name]) -> Result<(), Stop>
    ensures { (look : Look) → Follows (λ _. tt) result (run look (some_columns names.now)) }
{
    if names.is_empty() {
        return Err(rules_refusals::key_column_does_not_exist(alloc, "")?);
    }
    Ok(())
}

/// The table with the index behind the others. The columns of a primary key are NOT NULL.
#[tactic(auto, unfolding(crate::specs::Tables::with_index))]
pub fn with_index(alloc: Global, parts: &mut TableParts, index: IndexDef) -> Result<(), AllocError>
    ensures { IfOk result (λ _. parts.new ≡ with_index parts.old index) }
{
    if is_primary(&index) {
        let columns = all_never_null(alloc, index.columns.as_slice(), parts.columns.as_slice())?;
        parts.columns = columns;
    }
    parts.indexes.push(index)?;
    Ok(())
}

fn all_never_null(
    alloc: Global,
    names: &[Name],
    columns: &[ColumnDef],
) -> Result<List<ColumnDef>, AllocError>
    ensures { IfOk result (λ found. found ≡ map (never_null names.now) columns.now) }
{
    let mut found = List::new(alloc);
    'columns: for column in columns {
        found.push(never_null(names, column)?)?;
    }
    Ok(found)
}

/// The column, which is NOT NULL where it is among the names.
fn never_null(names: &[Name], column: &ColumnDef) -> Result<ColumnDef, AllocError>
    ensures { IfOk result (λ found. found ≡ never_null names.now column.now) }
{
    let mut column = column.copy()?;
    if is_among(names, &column.name) {
        column.nullable = false;
    }
    Ok(column)
}

fn is_among(names: &[Name], name: &Name) -> bool
    ensures { result ≡ list_any (bytes_eq name.now) names.now }
{
    names.iter().any(|other| *name == *other)
}

fn is_any_null_written(elements: &[Element], names: &[Name]) -> bool
    ensures { result ≡ list_any (is_null_written (flat_map column_in elements.now)) names.now }
{
    names.iter().any(|name| is_null_written(elements, name))
}

/// Whether NULL or DEFAULT NULL is written for the column.
fn is_null_written(elements: &[Element], name: &Name) -> bool
    ensures { result ≡ is_null_written (flat_map column_in elements.now) name.now }
{
    is_null_among(elements, name)
}

fn is_null_among(elements: &[Element], name: &Name) -> bool
    ensures { result ≡ list_any (is_null_of name.now) elements.now }
{
    elements.iter().any(|element| is_null_of(element, name))
}

/// Whether the element is the column, and says so.
fn is_null_of(element: &Element, name: &Name) -> bool
    ensures { result ≡ is_null_of name.now element.now }
{
    match element {
        Element::Column(words) => words.name.same(name) && says_null(words),
        _ => false,
    }
}

fn says_null(words: &ColumnWords) -> bool
    ensures { result ≡ (is_true words.now.nullable || is_null words.now.default) }
{
    is_true(words.nullable) || is_null(&words.default)
}

fn is_true(said: Option<bool>) -> bool
    ensures { result ≡ is_true said }
{
    match said {
        Some(said) => said,
        None => false,
    }
}

fn is_null(default: &Option<Literal>) -> bool
    ensures { result ≡ is_null default.now }
{
    matches!(default, Some(Literal::Null))
}
