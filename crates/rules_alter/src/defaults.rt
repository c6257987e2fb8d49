// SET DEFAULT and DROP DEFAULT of a column (MySQL 8.0 Reference Manual, 13.1.9).
ghost use Rattle.std.specs.Prelude.{◌≡◌, Some, None, map, IfOk, OnOk};
ghost use Rattle.dd_catalog.specs.WalkLaws.{Look};
ghost use Rattle.dd_catalog.specs.Walks.{run};
ghost use Rattle.dd_catalog.specs.Follow.{Follows};
ghost use Rattle.rules_create.specs.Tables.{is_null};
ghost use Rattle.rules_alter.specs.Columns.{column_with_default, default_of, default_set, drop_default, set_default, with_default, words_of};

use crate::changes::known_name;
use crate::columns::{known_column, note_null};
use crate::states::Altering;
use dd_catalog::Stop;
use dd_definitions::{ColumnDef, TableParts};
use dd_names::{List, Name, Text, TryCopy, both};
use rules_elements::kept_default;
use sql_types::{ColumnWords, Literal, TypeWords};
use std::alloc::{AllocError, Global};

/// SET DEFAULT. Unknown: 1054. The default as for a new column: 1067.
#[tactic(auto, using(dd_catalog::specs::WalkLaws::run_bind), unfolding(crate::specs::Columns::set_default))]
pub(crate) fn set_default(
    alloc: Global,
    state: &mut Altering,
    name: &Name,
    value: &Literal,
) -> Result<(), Stop>
    ensures { (look : Look) → Follows (λ _. state.new) result (run look (set_default name.now value.now state.old)) }
{
    let (column, default) = default_of(alloc, &state.parts, name, value)?;
    default_set(alloc, state, is_null(value), &column, &default)?;
    Ok(())
}

/// How the table spells the column, and the default as it is kept.
#[tactic(auto, using(dd_catalog::specs::WalkLaws::run_bind), unfolding(crate::specs::Columns::default_of))]
fn default_of(
    alloc: Global,
    parts: &TableParts,
    name: &Name,
    value: &Literal,
) -> Result<(Name, Option<Text>), Stop>
    ensures { (look : Look) → Follows (λ found. found) result (run look (default_of name.now value.now parts.now)) }
{
    let column = known_column(alloc, parts, name)?;
    let words = words_of(name, value, column)?;
    let default = kept_default(alloc, &words, column.kind)?;
    match column.name.copy() {
        Ok(name) => Ok((name, default)),
        Err(_) => Err(Stop::Memory),
    }
}

/// The column as a statement would write it with this default.
fn words_of(name: &Name, value: &Literal, column: &ColumnDef) -> Result<ColumnWords, AllocError>
    ensures { IfOk result (λ words. words ≡ words_of name.now value.now column.now) }
{
    match both(name.copy(), value.copy()) {
        Ok((name, value)) => Ok(ColumnWords {
            name,
            kind: TypeWords::Bool,
            nullable: Some(column.nullable),
            default: Some(value),
            auto: column.auto,
            unique: false,
            primary: false,
        }),
        Err(error) => Err(error),
    }
}

fn is_null(value: &Literal) -> bool
    ensures { result ≡ is_null (Some value.now) }
{
    matches!(value, Literal::Null)
}

fn default_set(
    alloc: Global,
    state: &mut Altering,
    is_null: bool,
    column: &Name,
    default: &Option<Text>,
) -> Result<(), AllocError>
    ensures { OnOk result (state.new ≡ default_set is_null (column.now, default.now) state.old) }
{
    with_default(alloc, column, default, &mut state.parts)?;
    note_null(&mut state.nulls, is_null, column)
}

fn with_default(
    alloc: Global,
    name: &Name,
    default: &Option<Text>,
    parts: &mut TableParts,
) -> Result<(), AllocError>
    ensures { OnOk result (parts.new ≡ with_default name.now default.now parts.old) }
{
    let columns = columns_with_default(alloc, name, default, parts.columns.as_slice())?;
    parts.columns = columns;
    Ok(())
}

fn columns_with_default(
    alloc: Global,
    name: &Name,
    default: &Option<Text>,
    columns: &[ColumnDef],
) -> Result<List<ColumnDef>, AllocError>
    ensures { IfOk result (λ found. found ≡ map (column_with_default name.now default.now) columns.now) }
{
    let mut found = List::new(alloc);
    'columns: for column in columns {
        found.push(column_with_default(name, default, column)?)?;
    }
    Ok(found)
}

fn column_with_default(
    name: &Name,
    default: &Option<Text>,
    column: &ColumnDef,
) -> Result<ColumnDef, AllocError>
    ensures { IfOk result (λ found. found ≡ column_with_default name.now default.now column.now) }
{
    let mut found = column.copy()?;
    if column.name == *name {
        found.default = default.copy()?;
    }
    Ok(found)
}

/// DROP DEFAULT. Unknown: 1054. The column then has no default.
#[tactic(auto, using(dd_catalog::specs::WalkLaws::run_bind), unfolding(crate::specs::Columns::drop_default))]
pub(crate) fn drop_default(alloc: Global, state: &mut Altering, name: &Name) -> Result<(), Stop>
    ensures { (look : Look) → Follows (λ _. state.new) result (run look (drop_default name.now state.old)) }
{
    let column = known_name(alloc, &state.parts, name)?;
    with_default(alloc, &column, &None, &mut state.parts)?;
    Ok(())
}
