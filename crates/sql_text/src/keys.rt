ghost use Rattle.std.specs.Prelude.{OnOk};
ghost use Rattle.sql_pieces.specs.Pieces.{Adds};
ghost use Rattle.sql_text.specs.Parts.{word, name_pieces, where_some};
ghost use Rattle.sql_text.specs.Keys.{constraint_pieces, class_pieces, key_pieces, done_pieces, rule_pieces, parent_pieces, reference_pieces, foreign_key_pieces, element_pieces};

use crate::columns::put_column;
use crate::lists::{Spelled, put_names};
use crate::parts::{put_name, put_object};
use dd_names::{Name, Text};
use sql_ast::Element;
use sql_types::{FkRule, FkWords, IndexClass, KeyWords};
use std::alloc::{AllocError, Global};

/// CONSTRAINT and its name, where there is one.
fn put_constraint(out: &mut Text, constraint: &Option<Name>) -> Result<(), AllocError>
    ensures { OnOk result (Adds out.old out.new (constraint_pieces constraint.now)) }
{
    if let Some(name) = constraint {
        out.push_str(" CONSTRAINT")?;
        put_name(out, name)?;
    }
    Ok(())
}

/// A key's name, where it has one.
fn put_key_name(out: &mut Text, name: &Option<Name>) -> Result<(), AllocError>
    ensures { OnOk result (Adds out.old out.new (where_some name_pieces name.now)) }
{
    match name {
        None => Ok(()),
        Some(name) => put_name(out, name),
    }
}

fn put_class(out: &mut Text, class: IndexClass) -> Result<(), AllocError>
    ensures { OnOk result (Adds out.old out.new (class_pieces class)) }
{
    match class {
        IndexClass::Primary => out.push_str(" PRIMARY KEY"),
        IndexClass::Unique => out.push_str(" UNIQUE"),
        IndexClass::Plain => out.push_str(" INDEX"),
    }
}

/// A key.
pub fn put_key(alloc: Global, out: &mut Text, key: &KeyWords) -> Result<(), AllocError>
    ensures { OnOk result (Adds out.old out.new (key_pieces key.now)) }
{
    put_constraint(out, &key.constraint)?;
    put_class(out, key.class)?;
    put_key_name(out, &key.name)?;
    put_names(alloc, out, &key.columns)?;
    Ok(())
}

fn put_what_is_done(out: &mut Text, rule: FkRule) -> Result<(), AllocError>
    ensures { OnOk result (Adds out.old out.new (done_pieces rule)) }
{
    match rule {
        FkRule::NoAction => Ok(()),
        FkRule::Restrict => out.push_str(" RESTRICT"),
        FkRule::Cascade => out.push_str(" CASCADE"),
        FkRule::SetNull => out.push_str(" SET NULL"),
    }
}

/// What is done on DELETE, where that isn't NO ACTION.
fn put_on_delete(out: &mut Text, rule: FkRule) -> Result<(), AllocError>
    ensures { OnOk result (Adds out.old out.new (rule_pieces (word "DELETE") rule)) }
{
    if rule != FkRule::NoAction {
        out.push_str(" ON DELETE")?;
        put_what_is_done(out, rule)?;
    }
    Ok(())
}

/// What is done on UPDATE, where that isn't NO ACTION.
fn put_on_update(out: &mut Text, rule: FkRule) -> Result<(), AllocError>
    ensures { OnOk result (Adds out.old out.new (rule_pieces (word "UPDATE") rule)) }
{
    if rule != FkRule::NoAction {
        out.push_str(" ON UPDATE")?;
        put_what_is_done(out, rule)?;
    }
    Ok(())
}

/// What a foreign key refers to, and what is done.
fn put_parent(alloc: Global, out: &mut Text, key: &FkWords) -> Result<(), AllocError>
    ensures { OnOk result (Adds out.old out.new (parent_pieces key.now)) }
{
    put_object(out, &key.parent)?;
    put_names(alloc, out, &key.parent_columns)?;
    put_on_delete(out, key.on_delete)?;
    put_on_update(out, key.on_update)?;
    Ok(())
}

/// A foreign key behind its constraint.
fn put_reference(alloc: Global, out: &mut Text, key: &FkWords) -> Result<(), AllocError>
    ensures { OnOk result (Adds out.old out.new (reference_pieces key.now)) }
{
    out.push_str(" FOREIGN KEY")?;
    put_key_name(out, &key.name)?;
    put_names(alloc, out, &key.columns)?;
    out.push_str(" REFERENCES")?;
    put_parent(alloc, out, key)?;
    Ok(())
}

/// A foreign key.
pub fn put_foreign_key(alloc: Global, out: &mut Text, key: &FkWords) -> Result<(), AllocError>
    ensures { OnOk result (Adds out.old out.new (foreign_key_pieces key.now)) }
{
    put_constraint(out, &key.constraint)?;
    put_reference(alloc, out, key)?;
    Ok(())
}

impl Spelled for Element {
    ghost use Rattle.sql_text.specs.Keys.{element_pieces};

    ghost pieces = { element_pieces };

    fn put(&self, alloc: Global, out: &mut Text) -> Result<(), AllocError> {
        match self {
            Element::Column(column) => put_column(alloc, out, column),
            Element::Key(key) => put_key(alloc, out, key),
            Element::ForeignKey(key) => put_foreign_key(alloc, out, key),
        }
    }
}
