ghost use Rattle.std.specs.Prelude.{OnOk};
ghost use Rattle.sql_pieces.specs.Pieces.{Adds};
ghost use Rattle.sql_text.specs.Parts.{where_some};
ghost use Rattle.sql_ast.specs.declared.view.Item.TheVariants as items;
ghost use Rattle.sql_text.specs.Views.{alias_pieces, item_pieces, source_pieces, select_pieces};

use crate::lists::{Spelled, put_divided};
use crate::parts::{put_name, put_object, put_schema};
use dd_names::{Name, Text};
use sql_ast::{Item, Select, SelectSource};
use std::alloc::{AllocError, Global};

/// AS and another name, where there is one.
fn put_alias(out: &mut Text, alias: &Option<Name>) -> Result<(), AllocError>
    ensures { OnOk result (Adds out.old out.new (where_some alias_pieces alias.now)) }
{
    if let Some(name) = alias {
        out.push_str(" AS")?;
        put_name(out, name)?;
    }
    Ok(())
}

/// All columns of a source.
fn put_all_of(out: &mut Text, alias: &Name) -> Result<(), AllocError>
    ensures { OnOk result (Adds out.old out.new (item_pieces (items.AllOf alias.now))) }
{
    put_name(out, alias)?;
    out.push_str(" . *")?;
    Ok(())
}

/// A column of a source, and the name under which it is shown.
fn put_shown(
    out: &mut Text,
    alias: &Option<Name>,
    column: &Name,
    output: &Option<Name>,
) -> Result<(), AllocError>
    ensures { OnOk result (Adds out.old out.new (item_pieces (items.Column alias.now column.now output.now))) }
{
    put_schema(out, alias)?;
    put_name(out, column)?;
    put_alias(out, output)?;
    Ok(())
}

impl Spelled for Item {
    ghost use Rattle.sql_text.specs.Views.{item_pieces};

    ghost pieces = { item_pieces };

    fn put(&self, _alloc: Global, out: &mut Text) -> Result<(), AllocError> {
        match self {
            Item::All => out.push_str(" *"),
            Item::AllOf(alias) => put_all_of(out, alias),
            Item::Column {
                alias,
                column,
                output,
            } => put_shown(out, alias, column, output),
        }
    }
}

impl Spelled for SelectSource {
    ghost use Rattle.sql_text.specs.Views.{source_pieces};

    ghost pieces = { source_pieces };

    fn put(&self, _alloc: Global, out: &mut Text) -> Result<(), AllocError> {
        put_object(out, &self.object)?;
        put_alias(out, &self.alias)?;
        Ok(())
    }
}

/// A view's query.
pub fn put_select(alloc: Global, out: &mut Text, query: &Select) -> Result<(), AllocError>
    ensures { OnOk result (Adds out.old out.new (select_pieces query.now)) }
{
    out.push_str(" SELECT")?;
    put_divided(alloc, out, &query.items)?;
    out.push_str(" FROM")?;
    put_divided(alloc, out, &query.sources)?;
    Ok(())
}
