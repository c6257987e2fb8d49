// DROP COLUMN (MySQL 8.0 Reference Manual, 13.1.9).
ghost use Rattle.std.specs.Prelude.{◌≡◌, ◌==◌, [], ◌∷◌, ◌++◌, length, IfOk, OnOk};
ghost use Rattle.std.specs.List.{find, flat_map};
ghost use Rattle.std.specs.Option.{option_copied};
ghost use Rattle.dd_catalog.specs.WalkLaws.{Look};
ghost use Rattle.dd_catalog.specs.Walks.{every, refuse_if, refuse_some, run};
ghost use Rattle.dd_catalog.specs.Follow.{Follows};
ghost use Rattle.rules_refusals.specs.Refusals.{cant_drop_field_or_key, cant_remove_all_fields};
ghost use Rattle.rules_alter.specs.Altering.{is_among_names, other_columns, refers_to_column, the_name};
ghost use Rattle.rules_alter.specs.Columns.{allowed_drop, child_allows, drop_column, dropped, index_or_none, index_without, refused_by, refused_by_own, without_column, without_null};

use crate::arranged::{arrange, ranks_of};
use crate::states::{Altering, Child};
use dd_catalog::Stop;
use dd_definitions::{ColumnDef, ForeignKeyDef, IndexDef, TableParts};
use dd_names::{List, Name, ObjName, TryCopy};
use rules_elements::{column_named, is_same_object};
use std::alloc::{AllocError, Global};

/// DROP COLUMN. Unknown: 1091. The only one: 1090. In a foreign key of the table: 1828. In the parent columns of a child's foreign
/// key, or of one that refers to the table itself: 1829. The column leaves its indexes.
#[tactic(auto, using(dd_catalog::specs::WalkLaws::run_bind), unfolding(crate::specs::Columns::drop_column))]
pub(crate) fn drop_column(alloc: Global, state: &mut Altering, name: &Name) -> Result<(), Stop>
    ensures { (look : Look) → Follows (λ _. state.new) result (run look (drop_column name.now state.old)) }
{
    let column = name_to_drop(alloc, &state.parts, name)?;
    allow_drop(alloc, name, &column, state)?;
    take_out(alloc, &column, state)?;
    Ok(())
}

/// How the table spells the column of that name; where there is none, 1091.
fn name_to_drop(alloc: Global, parts: &TableParts, name: &Name) -> Result<Name, Stop>
    ensures { (look : Look) → Follows (λ column. column) result (run look (the_name (cant_drop_field_or_key name.now) parts.now name.now)) }
{
    match column_named(parts.columns.as_slice(), name) {
        Some(column) => Ok(column.name.copy()?),
        None => Err(rules_refusals::cant_drop_field_or_key(alloc, name)?),
    }
}

#[tactic(auto, using(dd_catalog::specs::WalkLaws::run_bind), unfolding(crate::specs::Columns::allowed_drop))]
fn allow_drop(alloc: Global, name: &Name, column: &Name, state: &Altering) -> Result<(), Stop>
    ensures { (look : Look) → Follows (λ _. tt) result (run look (allowed_drop name.now column.now state.now)) }
{
    allow_fewer(alloc, &state.parts)?;
    allow_own(alloc, name, column, state.parts.foreign_keys.as_slice())?;
    allow_children(
        alloc,
        name,
        &state.parts.name,
        column,
        state.children.as_slice(),
    )?;
    allow_referring(alloc, name, &state.parts.name, column, &state.parts)
}

/// Refuses to drop the only column: 1090.
fn allow_fewer(alloc: Global, parts: &TableParts) -> Result<(), Stop>
    ensures { (look : Look) → Follows (λ _. tt) result (run look (refuse_if (length parts.now.columns == 1) cant_remove_all_fields)) }
{
    if parts.columns.len() == 1 {
        return Err(rules_refusals::cant_remove_all_fields(alloc));
    }
    Ok(())
}

/// Refuses to drop a column of a foreign key: 1828.
fn allow_own(alloc: Global, name: &Name, column: &Name, keys: &[ForeignKeyDef]) -> Result<(), Stop>
    ensures { (look : Look) → Follows (λ _. tt) result (run look (refuse_some (refused_by_own name.now column.now keys.now))) }
{
    match key_with(keys, column) {
        None => Ok(()),
        Some(key) => Err(rules_refusals::fk_column_cannot_drop(alloc, name, &key.name)?),
    }
}

fn key_with<'a>(keys: &'a [ForeignKeyDef], column: &Name) -> Option<&'a ForeignKeyDef>
    ensures { option_copied result ≡ find (λ key. is_among_names key.columns column.now) keys.now }
{
    keys.iter()
        .find(|key| is_among(key.columns.as_slice(), column))
}

pub(crate) fn is_among(names: &[Name], name: &Name) -> bool
    ensures { result ≡ is_among_names names.now name.now }
{
    names.iter().any(|other| *name == *other)
}

fn allow_children(
    alloc: Global,
    name: &Name,
    table: &ObjName,
    column: &Name,
    children: &[Child],
) -> Result<(), Stop>
    ensures { (look : Look) → Follows (λ _. tt) result (run look (every (child_allows name.now table.now column.now) children.now)) }
{
    'children: for child in children {
        allow_referring(alloc, name, table, column, &child.parts)?;
    }
    Ok(())
}

/// Refuses to drop a column to which a foreign key of this table refers: 1829.
fn allow_referring(
    alloc: Global,
    name: &Name,
    table: &ObjName,
    column: &Name,
    child: &TableParts,
) -> Result<(), Stop>
    ensures { (look : Look) → Follows (λ _. tt) result (run look (refuse_some (refused_by name.now table.now column.now child.now))) }
{
    match key_on(child.foreign_keys.as_slice(), table, column) {
        None => Ok(()),
        Some(key) => Err(rules_refusals::fk_column_cannot_drop_child(
            alloc,
            name,
            &key.name,
            &child.name.name,
        )?),
    }
}

fn key_on<'a>(
    keys: &'a [ForeignKeyDef],
    table: &ObjName,
    column: &Name,
) -> Option<&'a ForeignKeyDef>
    ensures { option_copied result ≡ find (refers_to_column table.now column.now) keys.now }
{
    keys.iter().find(|key| refers_to_column(table, column, key))
}

pub(crate) fn refers_to_column(table: &ObjName, column: &Name, key: &ForeignKeyDef) -> bool
    ensures { result ≡ refers_to_column table.now column.now key.now }
{
    is_same_object(&key.parent, table) && is_among(key.parent_columns.as_slice(), column)
}

/// The table without the column, its indexes in their order.
#[tactic(auto, unfolding(crate::specs::Arranged::arranged))]
fn take_out(alloc: Global, column: &Name, state: &mut Altering) -> Result<(), AllocError>
    ensures { OnOk result (state.new ≡ dropped column.now state.old) }
{
    let before = ranks_of(alloc, &state.parts)?;
    without_column(alloc, column, &mut state.parts)?;
    arrange(alloc, &before, &mut state.parts)?;
    let nulls = other_names(alloc, column, state.nulls.as_slice())?;
    state.nulls = nulls;
    Ok(())
}

fn without_column(alloc: Global, column: &Name, parts: &mut TableParts) -> Result<(), AllocError>
    ensures { OnOk result (parts.new ≡ without_column column.now parts.old) }
{
    let columns = other_columns(alloc, column, parts.columns.as_slice())?;
    let indexes = indexes_without(alloc, column, parts.indexes.as_slice())?;
    parts.columns = columns;
    parts.indexes = indexes;
    Ok(())
}

/// The columns but the one of that name.
pub(crate) fn other_columns(
    alloc: Global,
    name: &Name,
    columns: &[ColumnDef],
) -> Result<List<ColumnDef>, AllocError>
    ensures { IfOk result (λ others. others ≡ other_columns name.now columns.now) }
{
    let mut others = List::new(alloc);
    'columns: for column in columns {
        add_other(&mut others, name, column)?;
    }
    Ok(others)
}

fn add_other(
    others: &mut List<ColumnDef>,
    name: &Name,
    column: &ColumnDef,
) -> Result<(), AllocError>
    ensures { OnOk result (others.new ≡ others.old ++ other_columns name.now (column.now ∷ [])) }
{
    if !column.name.same(name) {
        others.push(column.copy()?)?;
    }
    Ok(())
}

fn indexes_without(
    alloc: Global,
    column: &Name,
    indexes: &[IndexDef],
) -> Result<List<IndexDef>, AllocError>
    ensures { IfOk result (λ found. found ≡ flat_map (index_without column.now) indexes.now) }
{
    let mut found = List::new(alloc);
    'indexes: for index in indexes {
        found.append(index_without(alloc, column, index)?)?;
    }
    Ok(found)
}

/// The index without the column by itself, or nothing where it has no other.
fn index_without(
    alloc: Global,
    column: &Name,
    index: &IndexDef,
) -> Result<List<IndexDef>, AllocError>
    ensures { IfOk result (λ found. found ≡ index_without column.now index.now) }
{
    let columns = other_names(alloc, column, index.columns.as_slice())?;
    index_or_none(alloc, index, columns)
}

fn index_or_none(
    alloc: Global,
    index: &IndexDef,
    columns: List<Name>,
) -> Result<List<IndexDef>, AllocError>
    ensures { IfOk result (λ found. found ≡ index_or_none index.now columns) }
{
    let mut found = List::new(alloc);
    if !columns.is_empty() {
        found.push(with_columns(index, columns)?)?;
    }
    Ok(found)
}

fn with_columns(index: &IndexDef, columns: List<Name>) -> Result<IndexDef, AllocError>
    ensures { IfOk result (λ found. found ≡ record index.now { columns = columns }) }
{
    match index.name.copy() {
        Ok(name) => Ok(IndexDef {
            name,
            class: index.class,
            columns,
        }),
        Err(error) => Err(error),
    }
}

/// The names but this one.
fn other_names(alloc: Global, name: &Name, names: &[Name]) -> Result<List<Name>, AllocError>
    ensures { IfOk result (λ others. others ≡ without_null name.now names.now) }
{
    let mut others = List::new(alloc);
    'names: for other in names {
        add_other_name(&mut others, name, other)?;
    }
    Ok(others)
}

fn add_other_name(others: &mut List<Name>, name: &Name, other: &Name) -> Result<(), AllocError>
    ensures { OnOk result (others.new ≡ others.old ++ without_null name.now (other.now ∷ [])) }
{
    if *other != *name {
        others.push(other.copy()?)?;
    }
    Ok(())
}
