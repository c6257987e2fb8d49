ghost use Rattle.std.specs.Prelude.{◌++◌, [], ◌∷◌, OnOk};
ghost use Rattle.sql_pieces.specs.Pieces.{Adds, as_name};
ghost use Rattle.sql_text.specs.Parts.{word, where_some};
ghost use Rattle.sql_ast.specs.declared.action.AlterAction.TheVariants as does;
ghost use Rattle.sql_text.specs.Columns.{column_pieces};
ghost use Rattle.sql_text.specs.Actions.{place_pieces, action_pieces};

use crate::columns::{put_column, put_literal};
use crate::keys::{put_foreign_key, put_key};
use crate::lists::{Spelled, put_divided};
use crate::parts::{put_name, put_object};
use dd_names::{List, Name, Text};
use sql_ast::{AlterAction, Place};
use sql_types::{ColumnWords, FkWords, KeyWords, Literal, ObjRef};
use std::alloc::{AllocError, Global};

/// Where a column comes to stand, where that is said.
fn put_place(out: &mut Text, place: &Option<Place>) -> Result<(), AllocError>
    ensures { OnOk result (Adds out.old out.new (where_some place_pieces place.now)) }
{
    match place {
        None => Ok(()),
        Some(Place::First) => out.push_str(" FIRST"),
        Some(Place::After(name)) => {
            out.push_str(" AFTER")?;
            put_name(out, name)
        }
    }
}

/// A column, and where it comes to stand.
fn put_placed(
    alloc: Global,
    out: &mut Text,
    column: &ColumnWords,
    place: &Option<Place>,
) -> Result<(), AllocError>
    ensures { OnOk result (Adds out.old out.new (column_pieces column.now ++ where_some place_pieces place.now)) }
{
    put_column(alloc, out, column)?;
    put_place(out, place)?;
    Ok(())
}

fn put_add_column(
    alloc: Global,
    out: &mut Text,
    column: &ColumnWords,
    place: &Option<Place>,
) -> Result<(), AllocError>
    ensures { OnOk result (Adds out.old out.new (action_pieces (does.AddColumn column.now place.now))) }
{
    out.push_str(" ADD")?;
    put_placed(alloc, out, column, place)?;
    Ok(())
}

fn put_add_columns(
    alloc: Global,
    out: &mut Text,
    columns: &List<ColumnWords>,
) -> Result<(), AllocError>
    ensures { OnOk result (Adds out.old out.new (action_pieces (does.AddColumns columns.now))) }
{
    out.push_str(" ADD (")?;
    put_divided(alloc, out, columns)?;
    out.push_str(" )")?;
    Ok(())
}

fn put_add_key(alloc: Global, out: &mut Text, key: &KeyWords) -> Result<(), AllocError>
    ensures { OnOk result (Adds out.old out.new (action_pieces (does.AddKey key.now))) }
{
    out.push_str(" ADD")?;
    put_key(alloc, out, key)?;
    Ok(())
}

fn put_add_foreign_key(alloc: Global, out: &mut Text, key: &FkWords) -> Result<(), AllocError>
    ensures { OnOk result (Adds out.old out.new (action_pieces (does.AddForeignKey key.now))) }
{
    out.push_str(" ADD")?;
    put_foreign_key(alloc, out, key)?;
    Ok(())
}

fn put_modify(
    alloc: Global,
    out: &mut Text,
    column: &ColumnWords,
    place: &Option<Place>,
) -> Result<(), AllocError>
    ensures { OnOk result (Adds out.old out.new (action_pieces (does.ModifyColumn column.now place.now))) }
{
    out.push_str(" MODIFY")?;
    put_placed(alloc, out, column, place)?;
    Ok(())
}

fn put_change(
    alloc: Global,
    out: &mut Text,
    name: &Name,
    column: &ColumnWords,
    place: &Option<Place>,
) -> Result<(), AllocError>
    ensures { OnOk result (Adds out.old out.new (action_pieces (does.ChangeColumn name.now column.now place.now))) }
{
    out.push_str(" CHANGE")?;
    put_name(out, name)?;
    put_placed(alloc, out, column, place)?;
    Ok(())
}

/// A name that becomes another.
fn put_name_to_name(out: &mut Text, from: &Name, to: &Name) -> Result<(), AllocError>
    ensures { OnOk result (Adds out.old out.new (as_name from.now ∷ word "TO" ∷ as_name to.now ∷ [])) }
{
    put_name(out, from)?;
    out.push_str(" TO")?;
    put_name(out, to)?;
    Ok(())
}

fn put_rename_column(out: &mut Text, from: &Name, to: &Name) -> Result<(), AllocError>
    ensures { OnOk result (Adds out.old out.new (action_pieces (does.RenameColumn from.now to.now))) }
{
    out.push_str(" RENAME COLUMN")?;
    put_name_to_name(out, from, to)?;
    Ok(())
}

fn put_rename_index(out: &mut Text, from: &Name, to: &Name) -> Result<(), AllocError>
    ensures { OnOk result (Adds out.old out.new (action_pieces (does.RenameIndex from.now to.now))) }
{
    out.push_str(" RENAME INDEX")?;
    put_name_to_name(out, from, to)?;
    Ok(())
}

fn put_rename_table(out: &mut Text, to: &ObjRef) -> Result<(), AllocError>
    ensures { OnOk result (Adds out.old out.new (action_pieces (does.RenameTable to.now))) }
{
    out.push_str(" RENAME")?;
    put_object(out, to)?;
    Ok(())
}

fn put_set_default(out: &mut Text, name: &Name, value: &Literal) -> Result<(), AllocError>
    ensures { OnOk result (Adds out.old out.new (action_pieces (does.SetDefault name.now value.now))) }
{
    out.push_str(" ALTER")?;
    put_name(out, name)?;
    out.push_str(" SET DEFAULT")?;
    put_literal(out, value)?;
    Ok(())
}

fn put_drop_default(out: &mut Text, name: &Name) -> Result<(), AllocError>
    ensures { OnOk result (Adds out.old out.new (action_pieces (does.DropDefault name.now))) }
{
    out.push_str(" ALTER")?;
    put_name(out, name)?;
    out.push_str(" DROP DEFAULT")?;
    Ok(())
}

fn put_drop_column(out: &mut Text, name: &Name) -> Result<(), AllocError>
    ensures { OnOk result (Adds out.old out.new (action_pieces (does.DropColumn name.now))) }
{
    out.push_str(" DROP")?;
    put_name(out, name)?;
    Ok(())
}

fn put_drop_index(out: &mut Text, name: &Name) -> Result<(), AllocError>
    ensures { OnOk result (Adds out.old out.new (action_pieces (does.DropIndex name.now))) }
{
    out.push_str(" DROP INDEX")?;
    put_name(out, name)?;
    Ok(())
}

fn put_drop_foreign_key(out: &mut Text, name: &Name) -> Result<(), AllocError>
    ensures { OnOk result (Adds out.old out.new (action_pieces (does.DropForeignKey name.now))) }
{
    out.push_str(" DROP FOREIGN KEY")?;
    put_name(out, name)?;
    Ok(())
}

impl Spelled for AlterAction {
    ghost use Rattle.sql_text.specs.Actions.{action_pieces};

    ghost pieces = { action_pieces };

    fn put(&self, alloc: Global, out: &mut Text) -> Result<(), AllocError> {
        match self {
            AlterAction::AddColumn { column, place } => put_add_column(alloc, out, column, place),
            AlterAction::AddColumns { columns } => put_add_columns(alloc, out, columns),
            AlterAction::AddKey(key) => put_add_key(alloc, out, key),
            AlterAction::AddForeignKey(key) => put_add_foreign_key(alloc, out, key),
            AlterAction::DropColumn { name } => put_drop_column(out, name),
            AlterAction::ModifyColumn { column, place } => put_modify(alloc, out, column, place),
            AlterAction::ChangeColumn {
                name,
                column,
                place,
            } => put_change(alloc, out, name, column, place),
            AlterAction::RenameColumn { from, to } => put_rename_column(out, from, to),
            AlterAction::SetDefault { name, value } => put_set_default(out, name, value),
            AlterAction::DropDefault { name } => put_drop_default(out, name),
            AlterAction::DropIndex { name } => put_drop_index(out, name),
            AlterAction::DropPrimaryKey => out.push_str(" DROP PRIMARY KEY"),
            AlterAction::DropForeignKey { name } => put_drop_foreign_key(out, name),
            AlterAction::RenameIndex { from, to } => put_rename_index(out, from, to),
            AlterAction::RenameTable { to } => put_rename_table(out, to),
            AlterAction::Force => out.push_str(" FORCE"),
            AlterAction::Engine => out.push_str(" ENGINE InnoDB"),
        }
    }
}
