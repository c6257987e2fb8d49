// A column by another name, in all that names it.
ghost use Rattle.std.specs.Prelude.{◌≡◌, [], ◌∷◌, ◌++◌, map, IfOk, OnOk};
ghost use Rattle.rules_alter.specs.Altering.{all_renamed, child_renamed, column_renamed, is_child_touched, own_key_renamed, renamed_column, renamed_index, renamed_name, with_column_renamed, with_keys_renamed, with_parent_renamed};

use crate::drops::refers_to_column;
use crate::states::{Altering, Child};
use dd_definitions::{ColumnDef, ForeignKeyDef, IndexDef, TableParts};
use dd_names::{List, Name, ObjName, TryCopy};
use rules_elements::is_same_object;
use std::alloc::{AllocError, Global};
use std::mem;

/// The column that is spelled so has the other name in the table's indexes and foreign keys, and in those that refer to it.
#[tactic(auto, unfolding(crate::specs::Altering::column_renamed))]
pub(crate) fn column_renamed(
    alloc: Global,
    state: &mut Altering,
    from: &Name,
    to: &Name,
) -> Result<(), AllocError>
    ensures { OnOk result (state.new ≡ column_renamed from.now to.now state.old) }
{
    if *from == *to {
        return Ok(());
    }
    all_renamed(alloc, state, from, to)
}

fn all_renamed(
    alloc: Global,
    state: &mut Altering,
    from: &Name,
    to: &Name,
) -> Result<(), AllocError>
    ensures { OnOk result (state.new ≡ all_renamed from.now to.now state.old) }
{
    children_renamed(alloc, &state.parts.name, from, to, &mut state.children)?;
    with_column_renamed(alloc, from, to, &mut state.parts)?;
    let nulls = names_renamed(alloc, from, to, state.nulls.as_slice())?;
    state.nulls = nulls;
    Ok(())
}

fn with_column_renamed(
    alloc: Global,
    from: &Name,
    to: &Name,
    parts: &mut TableParts,
) -> Result<(), AllocError>
    ensures { OnOk result (parts.new ≡ with_column_renamed from.now to.now parts.old) }
{
    let columns = columns_renamed(alloc, from, to, parts.columns.as_slice())?;
    parts.columns = columns;
    let indexes = indexes_renamed(alloc, from, to, parts.indexes.as_slice())?;
    parts.indexes = indexes;
    let keys = own_keys_renamed(alloc, &parts.name, from, to, parts.foreign_keys.as_slice())?;
    parts.foreign_keys = keys;
    Ok(())
}

fn columns_renamed(
    alloc: Global,
    from: &Name,
    to: &Name,
    columns: &[ColumnDef],
) -> Result<List<ColumnDef>, AllocError>
    ensures { IfOk result (λ found. found ≡ map (renamed_column from.now to.now) columns.now) }
{
    let mut found = List::new(alloc);
    'columns: for column in columns {
        found.push(renamed_column(from, to, column)?)?;
    }
    Ok(found)
}

fn renamed_column(from: &Name, to: &Name, column: &ColumnDef) -> Result<ColumnDef, AllocError>
    ensures { IfOk result (λ found. found ≡ renamed_column from.now to.now column.now) }
{
    let mut found = column.copy()?;
    found.name = renamed_name(from, to, &column.name)?;
    Ok(found)
}

fn renamed_name(from: &Name, to: &Name, name: &Name) -> Result<Name, AllocError>
    ensures { IfOk result (λ found. found ≡ renamed_name from.now to.now name.now) }
{
    if *name == *from {
        to.copy()
    } else {
        name.copy()
    }
}

fn names_renamed(
    alloc: Global,
    from: &Name,
    to: &Name,
    names: &[Name],
) -> Result<List<Name>, AllocError>
    ensures { IfOk result (λ found. found ≡ map (renamed_name from.now to.now) names.now) }
{
    let mut found = List::new(alloc);
    'names: for name in names {
        found.push(renamed_name(from, to, name)?)?;
    }
    Ok(found)
}

fn indexes_renamed(
    alloc: Global,
    from: &Name,
    to: &Name,
    indexes: &[IndexDef],
) -> Result<List<IndexDef>, AllocError>
    ensures { IfOk result (λ found. found ≡ map (renamed_index from.now to.now) indexes.now) }
{
    let mut found = List::new(alloc);
    'indexes: for index in indexes {
        found.push(renamed_index(alloc, from, to, index)?)?;
    }
    Ok(found)
}

fn renamed_index(
    alloc: Global,
    from: &Name,
    to: &Name,
    index: &IndexDef,
) -> Result<IndexDef, AllocError>
    ensures { IfOk result (λ found. found ≡ renamed_index from.now to.now index.now) }
{
    let columns = names_renamed(alloc, from, to, index.columns.as_slice())?;
    match index.name.copy() {
        Ok(name) => Ok(IndexDef {
            name,
            class: index.class,
            columns,
        }),
        Err(error) => Err(error),
    }
}

fn own_keys_renamed(
    alloc: Global,
    table: &ObjName,
    from: &Name,
    to: &Name,
    keys: &[ForeignKeyDef],
) -> Result<List<ForeignKeyDef>, AllocError>
    ensures { IfOk result (λ found. found ≡ map (own_key_renamed table.now from.now to.now) keys.now) }
{
    let mut found = List::new(alloc);
    'keys: for key in keys {
        found.push(own_key_renamed(alloc, table, from, to, key)?)?;
    }
    Ok(found)
}

fn own_key_renamed(
    alloc: Global,
    table: &ObjName,
    from: &Name,
    to: &Name,
    key: &ForeignKeyDef,
) -> Result<ForeignKeyDef, AllocError>
    ensures { IfOk result (λ found. found ≡ own_key_renamed table.now from.now to.now key.now) }
{
    let mut found = with_parent_renamed(alloc, table, from, to, key)?;
    found.columns = names_renamed(alloc, from, to, key.columns.as_slice())?;
    Ok(found)
}

/// The foreign key with its parent columns, where it refers to the table.
fn with_parent_renamed(
    alloc: Global,
    table: &ObjName,
    from: &Name,
    to: &Name,
    key: &ForeignKeyDef,
) -> Result<ForeignKeyDef, AllocError>
    ensures { IfOk result (λ found. found ≡ with_parent_renamed table.now from.now to.now key.now) }
{
    let mut found = key.copy()?;
    if is_same_object(&key.parent, table) {
        found.parent_columns = names_renamed(alloc, from, to, key.parent_columns.as_slice())?;
    }
    Ok(found)
}

fn children_renamed(
    alloc: Global,
    table: &ObjName,
    from: &Name,
    to: &Name,
    children: &mut List<Child>,
) -> Result<(), AllocError>
    ensures { OnOk result (children.new ≡ map (child_renamed table.now from.now to.now) children.old) }
{
    let old = mem::replace(children, List::new(alloc));
    'children: for child in old.into_vec() {
        add_renamed(alloc, table, from, to, children, child)?;
    }
    Ok(())
}

fn add_renamed(
    alloc: Global,
    table: &ObjName,
    from: &Name,
    to: &Name,
    children: &mut List<Child>,
    child: Child,
) -> Result<(), AllocError>
    ensures { OnOk result (children.new ≡ children.old ++ map (child_renamed table.now from.now to.now) (child ∷ [])) }
{
    let mut child = child;
    touch(alloc, table, from, to, &mut child)?;
    children.push(child)?;
    Ok(())
}

fn touch(
    alloc: Global,
    table: &ObjName,
    from: &Name,
    to: &Name,
    child: &mut Child,
) -> Result<(), AllocError>
    ensures { OnOk result (child.new ≡ child_renamed table.now from.now to.now child.old) }
{
    if is_child_touched(table, from, child) {
        let keys = keys_renamed(alloc, table, from, to, child.parts.foreign_keys.as_slice())?;
        child.parts.foreign_keys = keys;
        child.is_changed = true;
    }
    Ok(())
}

fn is_child_touched(table: &ObjName, from: &Name, child: &Child) -> bool
    ensures { result ≡ is_child_touched table.now from.now child.now }
{
    child
        .parts
        .foreign_keys
        .as_slice()
        .iter()
        .any(|key| refers_to_column(table, from, key))
}

fn keys_renamed(
    alloc: Global,
    table: &ObjName,
    from: &Name,
    to: &Name,
    keys: &[ForeignKeyDef],
) -> Result<List<ForeignKeyDef>, AllocError>
    ensures { IfOk result (λ found. found ≡ map (with_parent_renamed table.now from.now to.now) keys.now) }
{
    let mut found = List::new(alloc);
    'keys: for key in keys {
        found.push(with_parent_renamed(alloc, table, from, to, key)?)?;
    }
    Ok(found)
}
