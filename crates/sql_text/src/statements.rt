ghost use Rattle.std.specs.Prelude.{[], ◌∷◌, ◌++◌, OnOk};
ghost use Rattle.sql_pieces.specs.Pieces.{Adds, as_name};
ghost use Rattle.sql_ast.specs.declared.table.RenamePair.{RenamePair};
ghost use Rattle.sql_text.specs.Parts.{word, where_some, where_true, names_pieces, object_pieces, if_not_exists_pieces};
ghost use Rattle.sql_text.specs.Views.{select_pieces};
ghost use Rattle.sql_text.specs.Canonical.{body_pieces, elements_pieces, pair_pieces, from_pieces};

use crate::lists::{Spelled, put_divided, put_names};
use crate::parts::{put_if_not_exists, put_name, put_object};
use crate::views::put_select;
use dd_names::{List, Name, Text};
use sql_ast::{CreateTable, Element, RenamePair, Select, TableBody};
use sql_types::ObjRef;
use std::alloc::{AllocError, Global};

impl Spelled for ObjRef {
    ghost use Rattle.sql_text.specs.Parts.{object_pieces};

    ghost pieces = { object_pieces };

    fn put(&self, _alloc: Global, out: &mut Text) -> Result<(), AllocError> {
        put_object(out, self)
    }
}

impl Spelled for RenamePair {
    ghost use Rattle.sql_text.specs.Canonical.{pair_pieces};

    ghost pieces = { pair_pieces };

    fn put(&self, _alloc: Global, out: &mut Text) -> Result<(), AllocError> {
        put_object(out, &self.from)?;
        out.push_str(" TO")?;
        put_object(out, &self.to)?;
        Ok(())
    }
}

/// A new table.
pub fn put_new_table(alloc: Global, out: &mut Text, words: &CreateTable) -> Result<(), AllocError>
    ensures { OnOk result (Adds out.old out.new (if_not_exists_pieces words.now.if_not_exists ++ (object_pieces words.now.table ++ body_pieces words.now.body))) }
{
    put_if_not_exists(out, words.if_not_exists)?;
    put_object(out, &words.table)?;
    put_body(alloc, out, &words.body)?;
    Ok(())
}

/// What a table is made of.
fn put_body(alloc: Global, out: &mut Text, body: &TableBody) -> Result<(), AllocError>
    ensures { OnOk result (Adds out.old out.new (body_pieces body.now)) }
{
    match body {
        TableBody::Like(source) => put_source(out, source),
        TableBody::Elements(elements) => put_elements(alloc, out, elements),
    }
}

/// LIKE and the table that is the pattern.
fn put_source(out: &mut Text, source: &ObjRef) -> Result<(), AllocError>
    ensures { OnOk result (Adds out.old out.new (word "LIKE" ∷ object_pieces source.now)) }
{
    out.push_str(" LIKE")?;
    put_object(out, source)
}

/// Columns and keys between parentheses.
fn put_elements(alloc: Global, out: &mut Text, elements: &List<Element>) -> Result<(), AllocError>
    ensures { OnOk result (Adds out.old out.new (elements_pieces elements.now)) }
{
    out.push_str(" (")?;
    put_divided(alloc, out, elements)?;
    out.push_str(" )")?;
    Ok(())
}

/// What a view shows, behind its name.
pub fn put_view(
    alloc: Global,
    out: &mut Text,
    columns: &Option<List<Name>>,
    query: &Select,
) -> Result<(), AllocError>
    ensures { OnOk result (Adds out.old out.new (where_some names_pieces columns.now ++ word "AS" ∷ select_pieces query.now)) }
{
    put_view_columns(alloc, out, columns)?;
    out.push_str(" AS")?;
    put_select(alloc, out, query)?;
    Ok(())
}

/// A view's names of its columns, where they stand.
fn put_view_columns(
    alloc: Global,
    out: &mut Text,
    columns: &Option<List<Name>>,
) -> Result<(), AllocError>
    ensures { OnOk result (Adds out.old out.new (where_some names_pieces columns.now)) }
{
    match columns {
        None => Ok(()),
        Some(names) => put_names(alloc, out, names),
    }
}

/// FROM and a schema, where there is one.
pub fn put_from(out: &mut Text, schema: &Option<Name>) -> Result<(), AllocError>
    ensures { OnOk result (Adds out.old out.new (where_some from_pieces schema.now)) }
{
    if let Some(name) = schema {
        out.push_str(" FROM")?;
        put_name(out, name)?;
    }
    Ok(())
}

/// A new index.
pub fn put_new_index(
    alloc: Global,
    out: &mut Text,
    unique: bool,
    name: &Name,
    table: &ObjRef,
    columns: &List<Name>,
) -> Result<(), AllocError>
    ensures { OnOk result (Adds out.old out.new (where_true (word "UNIQUE" ∷ []) unique ++ word "INDEX" ∷ as_name name.now ∷ word "ON" ∷ (object_pieces table.now ++ names_pieces columns.now))) }
{
    put_unique_index(out, unique)?;
    out.push_str(" INDEX")?;
    put_name(out, name)?;
    put_indexed(alloc, out, table, columns)?;
    Ok(())
}

/// The table that an index is on, and its columns.
fn put_indexed(
    alloc: Global,
    out: &mut Text,
    table: &ObjRef,
    columns: &List<Name>,
) -> Result<(), AllocError>
    ensures { OnOk result (Adds out.old out.new (word "ON" ∷ (object_pieces table.now ++ names_pieces columns.now))) }
{
    out.push_str(" ON")?;
    put_object(out, table)?;
    put_names(alloc, out, columns)?;
    Ok(())
}

/// UNIQUE, where it stands.
fn put_unique_index(out: &mut Text, stands: bool) -> Result<(), AllocError>
    ensures { OnOk result (Adds out.old out.new (where_true (word "UNIQUE" ∷ []) stands)) }
{
    if stands {
        out.push_str(" UNIQUE")?;
    }
    Ok(())
}
