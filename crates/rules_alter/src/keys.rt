// The actions on indexes (MySQL 8.0 Reference Manual, 13.1.9).
ghost use Rattle.std.specs.Prelude.{◌≡◌, [], ◌∷◌, ◌++◌, ◌&&◌, not, map, IfOk, OnOk};
ghost use Rattle.std.specs.List.{find, list_any};
ghost use Rattle.std.specs.Option.{option_copied};
ghost use Rattle.dd_names.specs.Names.{same};
ghost use Rattle.dd_catalog.specs.WalkLaws.{Look};
ghost use Rattle.dd_catalog.specs.Walks.{run, refuse_if};
ghost use Rattle.rules_refusals.specs.Refusals.{drop_index_fk, dup_keyname};
ghost use Rattle.dd_catalog.specs.Follow.{Follows};
ghost use Rattle.dd_definitions.specs.Indexes.{primary_name};
ghost use Rattle.rules_elements.specs.Keys.{has_index_named};
ghost use Rattle.rules_create.specs.Tables.{is_null_written};
ghost use Rattle.rules_alter.specs.Keys.{add_key, drop_index, is_index_lacking, key_added, lacks_index, lacks_parent_index, not_primary, null_words, other_indexes, rename_index, the_index, with_name};

use crate::arranged::{arrange, ranks_of};
use crate::states::{Altering, Child};
use dd_catalog::Stop;
use dd_definitions::{ForeignKeyDef, IndexDef, TableParts};
use dd_names::{List, Name, ObjName, TryCopy};
use rules_create::{has_index_on, is_primary, some_columns, with_index};
use rules_elements::{check_key, is_primary_name, is_same_object};
use sql_types::KeyWords;
use std::alloc::{AllocError, Global};

/// ADD KEY. The key stands behind those of its class.
#[tactic(auto, using(dd_catalog::specs::WalkLaws::run_bind), unfolding(crate::specs::Keys::add_key, crate::specs::Arranged::arranged))]
pub(crate) fn add_key(alloc: Global, state: &mut Altering, words: &KeyWords) -> Result<(), Stop>
    ensures { (look : Look) → Follows (λ _. state.new) result (run look (add_key words.now state.old)) }
{
    let before = ranks_of(alloc, &state.parts)?;
    key_added(alloc, state.nulls.as_slice(), &mut state.parts, words)?;
    arrange(alloc, &before, &mut state.parts)?;
    Ok(())
}

/// A key as in CREATE TABLE, behind the others. For a primary key, a column for which NULL or DEFAULT NULL is written: 1171.
#[tactic(auto, using(dd_catalog::specs::WalkLaws::run_bind), unfolding(rules_create::specs::Tables::one_key))]
pub(crate) fn key_added(
    alloc: Global,
    nulls: &[Name],
    parts: &mut TableParts,
    words: &KeyWords,
) -> Result<(), Stop>
    ensures { (look : Look) → Follows (λ _. parts.new) result (run look (key_added nulls.now parts.old words.now)) }
{
    some_columns(alloc, words.columns.as_slice())?;
    let index = check_key(alloc, parts, words)?;
    if is_primary(&index) && is_any_null(nulls, index.columns.as_slice()) {
        return Err(rules_refusals::primary_cant_have_null(alloc));
    }
    with_index(alloc, parts, index)?;
    Ok(())
}

fn is_any_null(nulls: &[Name], names: &[Name]) -> bool
    ensures { result ≡ list_any (is_null_written (map null_words nulls.now)) names.now }
{
    names.iter().any(|name| is_null_of(nulls, name))
}

/// Whether NULL is written for the column of that name.
fn is_null_of(nulls: &[Name], name: &Name) -> bool
    ensures { result ≡ is_null_written (map null_words nulls.now) name.now }
{
    is_among(nulls, name)
}

fn is_among(names: &[Name], name: &Name) -> bool
    ensures { result ≡ list_any (λ other. same other name.now) names.now }
{
    names.iter().any(|other| other.same(name))
}

/// The index of that name, in any case; where there is none, 1091.
fn the_index<'a>(alloc: Global, parts: &'a TableParts, name: &Name) -> Result<&'a IndexDef, Stop>
    ensures { (look : Look) → Follows (λ index. index.now) result (run look (the_index parts.now name.now)) }
{
    match index_named(parts.indexes.as_slice(), name) {
        Some(index) => Ok(index),
        None => Err(rules_refusals::cant_drop_field_or_key(alloc, name)?),
    }
}

fn index_named<'a>(indexes: &'a [IndexDef], name: &Name) -> Option<&'a IndexDef>
    ensures { option_copied result ≡ find (λ index. same index.name name.now) indexes.now }
{
    indexes.iter().find(|index| index.name.same(name))
}

/// DROP INDEX. Unknown: 1091. Without it a foreign key lacks its index: 1553.
#[tactic(auto, using(dd_catalog::specs::WalkLaws::run_bind), unfolding(crate::specs::Keys::drop_index))]
pub(crate) fn drop_index(alloc: Global, state: &mut Altering, name: &Name) -> Result<(), Stop>
    ensures { (look : Look) → Follows (λ _. state.new) result (run look (drop_index name.now state.old)) }
{
    the_index(alloc, &state.parts, name)?;
    allow_without(alloc, state, name)?;
    let others = other_indexes(alloc, name, state.parts.indexes.as_slice())?;
    state.parts.indexes = others;
    Ok(())
}

/// Refuses to drop an index without which a foreign key lacks its index.
fn allow_without(alloc: Global, state: &Altering, name: &Name) -> Result<(), Stop>
    ensures { (look : Look) → Follows (λ _. tt) result (run look (refuse_if (is_index_lacking state.now (other_indexes name.now state.now.parts.indexes)) (drop_index_fk name.now))) }
{
    if is_needed(alloc, state, name)? {
        return Err(rules_refusals::drop_index_fk(alloc, name)?);
    }
    Ok(())
}

fn is_needed(alloc: Global, state: &Altering, name: &Name) -> Result<bool, AllocError>
    ensures { IfOk result (λ needed. needed ≡ is_index_lacking state.now (other_indexes name.now state.now.parts.indexes)) }
{
    let others = other_indexes(alloc, name, state.parts.indexes.as_slice())?;
    Ok(is_index_lacking(state, others.as_slice()))
}

/// The indexes but the one of that name.
fn other_indexes(
    alloc: Global,
    name: &Name,
    indexes: &[IndexDef],
) -> Result<List<IndexDef>, AllocError>
    ensures { IfOk result (λ others. others ≡ other_indexes name.now indexes.now) }
{
    let mut others = List::new(alloc);
    'indexes: for index in indexes {
        add_other(&mut others, name, index)?;
    }
    Ok(others)
}

fn add_other(others: &mut List<IndexDef>, name: &Name, index: &IndexDef) -> Result<(), AllocError>
    ensures { OnOk result (others.new ≡ others.old ++ other_indexes name.now (index.now ∷ [])) }
{
    if !index.name.same(name) {
        others.push(index.copy()?)?;
    }
    Ok(())
}

/// Whether, with these indexes alone, a foreign key of the table or one that refers to it lacks its index.
#[tactic(auto, unfolding(crate::specs::Keys::is_index_lacking))]
fn is_index_lacking(state: &Altering, indexes: &[IndexDef]) -> bool
    ensures { result ≡ is_index_lacking state.now indexes.now }
{
    let table = &state.parts.name;
    let own = is_own_index_lacking(indexes, state.parts.foreign_keys.as_slice());
    let child = is_child_index_lacking(table, indexes, state.children.as_slice());
    own || (child || is_parent_index_lacking(table, indexes, &state.parts))
}

fn is_own_index_lacking(indexes: &[IndexDef], keys: &[ForeignKeyDef]) -> bool
    ensures { result ≡ list_any (lacks_index indexes.now) keys.now }
{
    keys.iter().any(|key| lacks_index(indexes, key))
}

fn lacks_index(indexes: &[IndexDef], key: &ForeignKeyDef) -> bool
    ensures { result ≡ lacks_index indexes.now key.now }
{
    !has_index_on(indexes, key.columns.as_slice())
}

fn is_child_index_lacking(table: &ObjName, indexes: &[IndexDef], children: &[Child]) -> bool
    ensures { result ≡ list_any (λ child. list_any (lacks_parent_index table.now indexes.now) child.parts.foreign_keys) children.now }
{
    children.iter().any(|child| is_parent_index_lacking(table, indexes, &child.parts))
}

fn is_parent_index_lacking(table: &ObjName, indexes: &[IndexDef], child: &TableParts) -> bool
    ensures { result ≡ list_any (lacks_parent_index table.now indexes.now) child.now.foreign_keys }
{
    child
        .foreign_keys
        .as_slice()
        .iter()
        .any(|key| lacks_parent_index(table, indexes, key))
}

fn lacks_parent_index(table: &ObjName, indexes: &[IndexDef], key: &ForeignKeyDef) -> bool
    ensures { result ≡ lacks_parent_index table.now indexes.now key.now }
{
    is_same_object(&key.parent, table) && !has_index_on(indexes, key.parent_columns.as_slice())
}

/// RENAME INDEX. Unknown: 1091. From or to `PRIMARY`: 1280. The new name at another index: 1061.
#[tactic(auto, using(dd_catalog::specs::WalkLaws::run_bind), unfolding(crate::specs::Keys::rename_index))]
pub(crate) fn rename_index(
    alloc: Global,
    state: &mut Altering,
    from: &Name,
    to: &Name,
) -> Result<(), Stop>
    ensures { (look : Look) → Follows (λ _. state.new) result (run look (rename_index from.now to.now state.old)) }
{
    the_index(alloc, &state.parts, from)?;
    not_primary(alloc, from)?;
    not_primary(alloc, to)?;
    allow_name(alloc, state.parts.indexes.as_slice(), from, to)?;
    let indexes = with_names(alloc, from, to, state.parts.indexes.as_slice())?;
    state.parts.indexes = indexes;
    Ok(())
}

/// Refuses the name of the primary key.
fn not_primary(alloc: Global, name: &Name) -> Result<(), Stop>
    ensures { (look : Look) → Follows (λ _. tt) result (run look (not_primary name.now)) }
{
    if is_primary_name(name.as_str()) {
        return Err(rules_refusals::wrong_name_for_index(alloc, name)?);
    }
    Ok(())
}

/// Refuses the name that another index than the one has.
fn allow_name(alloc: Global, indexes: &[IndexDef], one: &Name, name: &Name) -> Result<(), Stop>
    ensures { (look : Look) → Follows (λ _. tt) result (run look (refuse_if (has_index_named (other_indexes one.now indexes.now) name.now) (dup_keyname name.now))) }
{
    if is_named_beside(indexes, one, name) {
        return Err(rules_refusals::dup_keyname(alloc, name)?);
    }
    Ok(())
}

fn is_named_beside(indexes: &[IndexDef], one: &Name, name: &Name) -> bool
    ensures { result ≡ has_index_named (other_indexes one.now indexes.now) name.now }
{
    is_named_other(indexes, one, name)
}

fn is_named_other(indexes: &[IndexDef], one: &Name, name: &Name) -> bool
    ensures { result ≡ list_any (λ index. not (same index.name one.now) && same index.name name.now) indexes.now }
{
    indexes
        .iter()
        .any(|index| !index.name.same(one) && index.name.same(name))
}

fn with_names(
    alloc: Global,
    from: &Name,
    to: &Name,
    indexes: &[IndexDef],
) -> Result<List<IndexDef>, AllocError>
    ensures { IfOk result (λ found. found ≡ map (with_name from.now to.now) indexes.now) }
{
    let mut found = List::new(alloc);
    'indexes: for index in indexes {
        found.push(with_name(from, to, index)?)?;
    }
    Ok(found)
}

fn with_name(from: &Name, to: &Name, index: &IndexDef) -> Result<IndexDef, AllocError>
    ensures { IfOk result (λ found. found ≡ with_name from.now to.now index.now) }
{
    let mut found = index.copy()?;
    if index.name.same(from) {
        found.name = to.copy()?;
    }
    Ok(found)
}
