ghost use Rattle.std.specs.Prelude.{◌≡◌, Some, IfOk};
ghost use Rattle.sql_types.specs.declared.literal.Literal.TheVariants as literals;
ghost use Rattle.sql_types.specs.declared.words.TypeWords.TheVariants as words;
ghost use Rattle.dd_definitions.specs.Indexes.{is_integer};
ghost use Rattle.dd_catalog.specs.WalkLaws.{Look};
ghost use Rattle.dd_catalog.specs.Walks.{run};
ghost use Rattle.dd_catalog.specs.Follow.{Follows};
ghost use Rattle.rules_elements.specs.Columns.{column_with_default, column_type, is_null_allowed, kept_unless, null_kept, kept_default, defined_column, column_of};
ghost use Rattle.rules_elements.specs.Defaults.{kept_by};

use crate::defaults::{decimal_text, kept_by};
use dd_catalog::Stop;
use dd_definitions::ColumnDef;
use dd_names::{Name, Text, TryCopy};
use sql_types::{ColumnType, ColumnWords, Literal, TypeWords};
use std::alloc::{AllocError, Global};

/// The column that the words define by themselves, or their first fault: 1074, 1063 or 1067.
#[tactic(auto, using(dd_catalog::specs::WalkLaws::run_bind), unfolding(crate::specs::Columns::column_of))]
pub fn check_column(alloc: Global, column: &ColumnWords) -> Result<ColumnDef, Stop>
    ensures { (look : Look) → Follows (λ definition. definition) result (run look (column_of column.now)) }
{
    let kind = column_type(alloc, &column.name, column.kind)?;
    if column.auto && !is_integer(kind) {
        return Err(rules_refusals::wrong_field_spec(alloc, &column.name)?);
    }
    column_with_default(alloc, column, kind)
}

/// The column of this type with its default, as it is kept.
#[tactic(auto, using(dd_catalog::specs::WalkLaws::run_bind))]
fn column_with_default(
    alloc: Global,
    column: &ColumnWords,
    kind: ColumnType,
) -> Result<ColumnDef, Stop>
    ensures { (look : Look) → Follows (λ definition. definition) result (run look (column_with_default column.now kind)) }
{
    let default = kept_default(alloc, column, kind)?;
    Ok(defined_column(column, kind, default)?)
}

fn defined_column(
    column: &ColumnWords,
    kind: ColumnType,
    default: Option<Text>,
) -> Result<ColumnDef, AllocError>
    ensures { IfOk result (λ definition. definition ≡ defined_column column.now kind default) }
{
    Ok(ColumnDef {
        name: column.name.copy()?,
        kind,
        nullable: is_null_allowed(column) && !column.auto,
        default,
        auto: column.auto,
    })
}

#[tactic(auto, unfolding(crate::specs::Columns::column_type))]
fn column_type(alloc: Global, column: &Name, kind: TypeWords) -> Result<ColumnType, Stop>
    ensures { (look : Look) → Follows (λ found. found) result (run look (column_type column.now kind)) }
{
    match kind {
        TypeWords::Int { size, unsigned } => Ok(ColumnType::Int { size, unsigned }),
        TypeWords::Bool => Ok(ColumnType::Bool),
        TypeWords::Char { length } => char_type(alloc, column, length),
        TypeWords::VarChar { length } => varchar_type(alloc, column, length),
        TypeWords::Date => Ok(ColumnType::Date),
        TypeWords::DateTime => Ok(ColumnType::DateTime),
    }
}

#[tactic(auto, unfolding(crate::specs::Columns::column_type))]
fn char_type(alloc: Global, column: &Name, length: u128) -> Result<ColumnType, Stop>
    ensures { (look : Look) → Follows (λ found. found) result (run look (column_type column.now (words.Char length))) }
{
    if length > 255 {
        return Err(rules_refusals::too_big_fieldlength(alloc, column, "255")?);
    }
    Ok(ColumnType::Char {
        length: length as u16,
    })
}

#[tactic(auto, unfolding(crate::specs::Columns::column_type))]
fn varchar_type(alloc: Global, column: &Name, length: u128) -> Result<ColumnType, Stop>
    ensures { (look : Look) → Follows (λ found. found) result (run look (column_type column.now (words.VarChar length))) }
{
    if length > 16_383 {
        return Err(rules_refusals::too_big_fieldlength(alloc, column, "16383")?);
    }
    Ok(ColumnType::VarChar {
        length: length as u16,
    })
}

fn is_integer(kind: ColumnType) -> bool
    ensures { result ≡ is_integer kind }
{
    matches!(kind, ColumnType::Int { .. } | ColumnType::Bool)
}

fn is_null_allowed(column: &ColumnWords) -> bool
    ensures { result ≡ is_null_allowed column.now }
{
    column.nullable.unwrap_or(true)
}

/// The default that the words write, as a column of this type keeps it; 1067.
#[tactic(auto, unfolding(crate::specs::Columns::kept_default))]
pub fn kept_default(
    alloc: Global,
    column: &ColumnWords,
    kind: ColumnType,
) -> Result<Option<Text>, Stop>
    ensures { (look : Look) → Follows (λ kept. kept) result (run look (kept_default column.now kind column.now.default)) }
{
    match &column.default {
        None => Ok(None),
        Some(Literal::Null) => null_kept(alloc, column),
        Some(Literal::Number(number)) => number_kept(alloc, column, kind, number.as_str()),
        Some(Literal::Str(text)) => text_kept(alloc, column, kind, text.as_str()),
    }
}

/// DEFAULT NULL, which a column keeps as no default.
fn null_kept(alloc: Global, column: &ColumnWords) -> Result<Option<Text>, Stop>
    ensures { (look : Look) → Follows (λ kept. kept) result (run look (null_kept column.now)) }
{
    if column.auto || !is_null_allowed(column) {
        return Err(rules_refusals::invalid_default(alloc, &column.name)?);
    }
    Ok(None)
}

#[tactic(auto, unfolding(crate::specs::Columns::kept_default))]
fn number_kept(
    alloc: Global,
    column: &ColumnWords,
    kind: ColumnType,
    number: &str,
) -> Result<Option<Text>, Stop>
    ensures { (look : Look) → Follows (λ kept. kept) result (run look (kept_default column.now kind (Some (literals.Number number.now)))) }
{
    let text = decimal_text(alloc, number)?;
    text_kept(alloc, column, kind, text.as_str())
}

#[tactic(auto, unfolding(crate::specs::Columns::kept_default))]
fn text_kept(
    alloc: Global,
    column: &ColumnWords,
    kind: ColumnType,
    text: &str,
) -> Result<Option<Text>, Stop>
    ensures { (look : Look) → Follows (λ kept. kept) result (run look (kept_unless column.now.auto column.now.name (kept_by kind text.now))) }
{
    let kept = kept_by(alloc, kind, text)?;
    kept_unless(alloc, column.auto, &column.name, kept)
}

fn kept_unless(
    alloc: Global,
    auto: bool,
    column: &Name,
    kept: Option<Text>,
) -> Result<Option<Text>, Stop>
    ensures { (look : Look) → Follows (λ text. text) result (run look (kept_unless auto column.now kept)) }
{
    match kept {
        None => Err(rules_refusals::invalid_default(alloc, column)?),
        Some(text) => {
            if auto {
                return Err(rules_refusals::invalid_default(alloc, column)?);
            }
            Ok(Some(text))
        }
    }
}
