ghost use Rattle.std.specs.Prelude.{[], ◌∷◌, OnOk};
ghost use Rattle.sql_pieces.specs.Pieces.{Adds};
ghost use Rattle.sql_types.specs.declared.words.TypeWords.TheVariants as kind;
ghost use Rattle.sql_text.specs.Parts.{word, number_pieces, where_some, where_true};
ghost use Rattle.sql_text.specs.Columns.{signed_pieces, literal_pieces, size_word, char_pieces, type_pieces, null_pieces, default_pieces, attributes_pieces, column_pieces};

use crate::lists::Spelled;
use crate::parts::put_name;
use dd_names::Text;
use sql_pieces::{push_number, push_string};
use sql_types::{ColumnWords, IntSize, Literal, TypeWords};
use std::alloc::{AllocError, Global};

/// A number with its sign, if it has one.
fn put_signed(out: &mut Text, text: &str) -> Result<(), AllocError>
    ensures { OnOk result (Adds out.old out.new (signed_pieces text.now)) }
{
    if let Some(digits) = text.strip_prefix("+") {
        out.push_str(" + ")?;
        return out.push_str(digits);
    }
    if let Some(digits) = text.strip_prefix("-") {
        out.push_str(" - ")?;
        return out.push_str(digits);
    }
    out.push_str(" ")?;
    out.push_str(text)
}

/// A value that a statement writes.
pub fn put_literal(out: &mut Text, literal: &Literal) -> Result<(), AllocError>
    ensures { OnOk result (Adds out.old out.new (literal_pieces literal.now)) }
{
    match literal {
        Literal::Null => out.push_str(" NULL"),
        Literal::Number(number) => put_signed(out, number.as_str()),
        Literal::Str(text) => {
            out.push_str(" ")?;
            push_string(out, text.as_str())
        }
    }
}

/// A number between parentheses.
fn put_number(alloc: Global, out: &mut Text, number: u128) -> Result<(), AllocError>
    ensures { OnOk result (Adds out.old out.new (number_pieces number)) }
{
    out.push_str(" ( ")?;
    push_number(alloc, out, number)?;
    out.push_str(" )")
}

fn put_size(out: &mut Text, size: IntSize) -> Result<(), AllocError>
    ensures { OnOk result (Adds out.old out.new (size_word size ∷ [])) }
{
    match size {
        IntSize::Tiny => out.push_str(" TINYINT"),
        IntSize::Small => out.push_str(" SMALLINT"),
        IntSize::Medium => out.push_str(" MEDIUMINT"),
        IntSize::Normal => out.push_str(" INT"),
        IntSize::Big => out.push_str(" BIGINT"),
    }
}

fn put_unsigned(out: &mut Text, stands: bool) -> Result<(), AllocError>
    ensures { OnOk result (Adds out.old out.new (where_true (word "UNSIGNED" ∷ []) stands)) }
{
    if stands {
        out.push_str(" UNSIGNED")?;
    }
    Ok(())
}

/// CHAR, with its length where that isn't 1.
fn put_char(alloc: Global, out: &mut Text, length: u128) -> Result<(), AllocError>
    ensures { OnOk result (Adds out.old out.new (char_pieces length)) }
{
    out.push_str(" CHAR")?;
    if length != 1 {
        put_number(alloc, out, length)?;
    }
    Ok(())
}

/// An integer type.
fn put_int(out: &mut Text, size: IntSize, unsigned: bool) -> Result<(), AllocError>
    ensures { OnOk result (Adds out.old out.new (type_pieces (kind.Int size unsigned))) }
{
    put_size(out, size)?;
    put_unsigned(out, unsigned)?;
    Ok(())
}

/// VARCHAR with its length.
fn put_varchar(alloc: Global, out: &mut Text, length: u128) -> Result<(), AllocError>
    ensures { OnOk result (Adds out.old out.new (word "VARCHAR" ∷ number_pieces length)) }
{
    out.push_str(" VARCHAR")?;
    put_number(alloc, out, length)?;
    Ok(())
}

/// A column's type.
fn put_type(alloc: Global, out: &mut Text, kind: TypeWords) -> Result<(), AllocError>
    ensures { OnOk result (Adds out.old out.new (type_pieces kind)) }
{
    match kind {
        TypeWords::Int { size, unsigned } => put_int(out, size, unsigned),
        TypeWords::Bool => out.push_str(" BOOL"),
        TypeWords::Char { length } => put_char(alloc, out, length),
        TypeWords::VarChar { length } => put_varchar(alloc, out, length),
        TypeWords::Date => out.push_str(" DATE"),
        TypeWords::DateTime => out.push_str(" DATETIME"),
    }
}

/// NULL or NOT NULL, where one is written.
fn put_nullable(out: &mut Text, nullable: Option<bool>) -> Result<(), AllocError>
    ensures { OnOk result (Adds out.old out.new (where_some null_pieces nullable)) }
{
    match nullable {
        None => Ok(()),
        Some(true) => out.push_str(" NULL"),
        Some(false) => out.push_str(" NOT NULL"),
    }
}

/// DEFAULT, where it is written.
fn put_default(out: &mut Text, default: &Option<Literal>) -> Result<(), AllocError>
    ensures { OnOk result (Adds out.old out.new (where_some default_pieces default.now)) }
{
    if let Some(literal) = default {
        out.push_str(" DEFAULT")?;
        put_literal(out, literal)?;
    }
    Ok(())
}

fn put_auto(out: &mut Text, stands: bool) -> Result<(), AllocError>
    ensures { OnOk result (Adds out.old out.new (where_true (word "AUTO_INCREMENT" ∷ []) stands)) }
{
    if stands {
        out.push_str(" AUTO_INCREMENT")?;
    }
    Ok(())
}

fn put_unique(out: &mut Text, stands: bool) -> Result<(), AllocError>
    ensures { OnOk result (Adds out.old out.new (where_true (word "UNIQUE" ∷ []) stands)) }
{
    if stands {
        out.push_str(" UNIQUE")?;
    }
    Ok(())
}

fn put_primary(out: &mut Text, stands: bool) -> Result<(), AllocError>
    ensures { OnOk result (Adds out.old out.new (where_true (word "PRIMARY" ∷ word "KEY" ∷ []) stands)) }
{
    if stands {
        out.push_str(" PRIMARY KEY")?;
    }
    Ok(())
}

/// What a column has besides its type.
fn put_attributes(out: &mut Text, column: &ColumnWords) -> Result<(), AllocError>
    ensures { OnOk result (Adds out.old out.new (attributes_pieces column.now)) }
{
    put_nullable(out, column.nullable)?;
    put_default(out, &column.default)?;
    put_auto(out, column.auto)?;
    put_unique(out, column.unique)?;
    put_primary(out, column.primary)?;
    Ok(())
}

/// A column.
pub fn put_column(alloc: Global, out: &mut Text, column: &ColumnWords) -> Result<(), AllocError>
    ensures { OnOk result (Adds out.old out.new (column_pieces column.now)) }
{
    put_name(out, &column.name)?;
    put_type(alloc, out, column.kind)?;
    put_attributes(out, column)?;
    Ok(())
}

impl Spelled for ColumnWords {
    ghost use Rattle.sql_text.specs.Columns.{column_pieces};

    ghost pieces = { column_pieces };

    fn put(&self, alloc: Global, out: &mut Text) -> Result<(), AllocError> {
        put_column(alloc, out, self)
    }
}
