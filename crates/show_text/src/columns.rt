ghost use Rattle.std.specs.Prelude.{◌≡◌, ◌++◌, OnOk, IfOk};
ghost use Rattle.show_text.specs.Columns.{size_text, sign_text, with_length, type_text, null_text, no_default, kept_default, default_text, column_text};

use dd_definitions::ColumnDef;
use dd_names::Text;
use sql_pieces::{push_name, push_number, push_string};
use sql_types::{ColumnType, IntSize};
use std::alloc::{AllocError, Global};

/// A column: its name, its type and its attributes.
pub fn push_column(alloc: Global, out: &mut Text, column: &ColumnDef) -> Result<(), AllocError>
    ensures { OnOk result (out.new ≡ out.old ++ column_text column.now) }
{
    push_name(out, &column.name)?;
    out.push_str(" ")?;
    push_type(alloc, out, column.kind)?;
    out.push_str(null_text(column.nullable))?;
    push_default(out, column.auto, column.nullable, &column.default)
}

/// The text of a type, as `varchar(20)`.
pub fn column_type(alloc: Global, kind: ColumnType) -> Result<Text, AllocError>
    ensures { IfOk result (λ text. text ≡ type_text kind) }
{
    let mut out = Text::of(alloc, "")?;
    push_type(alloc, &mut out, kind)?;
    Ok(out)
}

fn push_type(alloc: Global, out: &mut Text, kind: ColumnType) -> Result<(), AllocError>
    ensures { OnOk result (out.new ≡ out.old ++ type_text kind) }
{
    match kind {
        ColumnType::Int { size, unsigned } => {
            out.push_str(size_text(size))?;
            out.push_str(sign_text(unsigned))
        }
        ColumnType::Bool => out.push_str("tinyint(1)"),
        ColumnType::Char { length } => push_with_length(alloc, out, "char", length),
        ColumnType::VarChar { length } => push_with_length(alloc, out, "varchar", length),
        ColumnType::Date => out.push_str("date"),
        ColumnType::DateTime => out.push_str("datetime"),
    }
}

fn size_text(size: IntSize) -> &'static str
    ensures { result.now ≡ size_text size }
{
    match size {
        IntSize::Tiny => "tinyint",
        IntSize::Small => "smallint",
        IntSize::Medium => "mediumint",
        IntSize::Normal => "int",
        IntSize::Big => "bigint",
    }
}

fn sign_text(unsigned: bool) -> &'static str
    ensures { result.now ≡ sign_text unsigned }
{
    if unsigned { " unsigned" } else { "" }
}

fn push_with_length(
    alloc: Global,
    out: &mut Text,
    word: &str,
    length: u16,
) -> Result<(), AllocError>
    ensures { OnOk result (out.new ≡ out.old ++ with_length word.now length) }
{
    out.push_str(word)?;
    out.push_str("(")?;
    push_number(alloc, out, u128::from(length))?;
    out.push_str(")")
}

fn null_text(nullable: bool) -> &'static str
    ensures { result.now ≡ null_text nullable }
{
    if nullable { "" } else { " NOT NULL" }
}

fn push_default(
    out: &mut Text,
    auto: bool,
    nullable: bool,
    default: &Option<Text>,
) -> Result<(), AllocError>
    ensures { OnOk result (out.new ≡ out.old ++ default_text auto nullable default.now) }
{
    if auto {
        return out.push_str(" AUTO_INCREMENT");
    }
    push_kept_default(out, nullable, default)
}

fn push_kept_default(
    out: &mut Text,
    nullable: bool,
    default: &Option<Text>,
) -> Result<(), AllocError>
    ensures { OnOk result (out.new ≡ out.old ++ kept_default nullable default.now) }
{
    match default {
        Some(text) => {
            out.push_str(" DEFAULT ")?;
            push_string(out, text.as_str())
        }
        None => out.push_str(no_default(nullable)),
    }
}

fn no_default(nullable: bool) -> &'static str
    ensures { result.now ≡ no_default nullable }
{
    if nullable { " DEFAULT NULL" } else { "" }
}
