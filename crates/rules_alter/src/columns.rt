// The actions that add, drop and change columns (MySQL 8.0 Reference Manual, 13.1.9).
ghost use Rattle.std.specs.Prelude.{◌≡◌, None, OnOk};
ghost use Rattle.dd_catalog.specs.WalkLaws.{Look};
ghost use Rattle.dd_catalog.specs.Walks.{over, refuse_if, run};
ghost use Rattle.dd_catalog.specs.Follow.{Follows};
ghost use Rattle.rules_refusals.specs.Refusals.{dup_fieldname};
ghost use Rattle.rules_create.specs.Tables.{has_column, is_null};
ghost use Rattle.rules_alter.specs.Altering.{the_column, unknown_column};
ghost use Rattle.rules_alter.specs.Keys.{key_added};
ghost use Rattle.rules_alter.specs.Columns.{add_column, add_columns, column_added, column_keys_added, is_null_in, with_null};

use crate::arranged::{arrange, ranks_of};
use crate::keys::key_added;
use crate::places::{allow_place, has_column, put_column, unknown};
use crate::states::Altering;
use dd_catalog::Stop;
use dd_definitions::{ColumnDef, TableParts};
use dd_names::{List, Name, TryCopy};
use rules_create::own_keys;
use rules_elements::{check_column, column_named};
use sql_ast::Place;
use sql_types::{ColumnWords, KeyWords, Literal};
use std::alloc::{AllocError, Global};

/// The column of that name, in any case; where there is none, 1054.
pub(crate) fn known_column<'a>(
    alloc: Global,
    parts: &'a TableParts,
    name: &Name,
) -> Result<&'a ColumnDef, Stop>
    ensures { (look : Look) → Follows (λ column. column.now) result (run look (the_column (unknown_column parts.now name.now) parts.now name.now)) }
{
    match column_named(parts.columns.as_slice(), name) {
        Some(column) => Ok(column),
        None => Err(unknown(alloc, parts, name)?),
    }
}

/// Whether NULL or DEFAULT NULL is written for the column.
pub(crate) fn is_null_in(words: &ColumnWords) -> bool
    ensures { result ≡ is_null_in words.now }
{
    words.nullable.unwrap_or(false) || is_null(&words.default)
}

fn is_null(default: &Option<Literal>) -> bool
    ensures { result ≡ is_null default.now }
{
    matches!(default, Some(Literal::Null))
}

/// Notes that NULL is written for the column, where it is.
pub(crate) fn note_null(
    nulls: &mut List<Name>,
    is_written: bool,
    name: &Name,
) -> Result<(), AllocError>
    ensures { OnOk result (nulls.new ≡ with_null is_written name.now nulls.old) }
{
    if is_written {
        nulls.push(name.copy()?)?;
    }
    Ok(())
}

/// ADD COLUMN with one column, and then its keys.
#[tactic(auto, using(dd_catalog::specs::WalkLaws::run_bind), unfolding(crate::specs::Columns::add_column, crate::specs::Arranged::arranged))]
pub(crate) fn add_column(
    alloc: Global,
    state: &mut Altering,
    words: &ColumnWords,
    place: &Option<Place>,
) -> Result<(), Stop>
    ensures { (look : Look) → Follows (λ _. state.new) result (run look (add_column words.now place.now state.old)) }
{
    let before = ranks_of(alloc, &state.parts)?;
    column_added(alloc, state, words, place)?;
    column_keys_added(alloc, state, words)?;
    arrange(alloc, &before, &mut state.parts)?;
    Ok(())
}

/// ADD COLUMN with several columns in order, and then their keys.
#[tactic(auto, using(dd_catalog::specs::WalkLaws::run_bind), unfolding(crate::specs::Columns::add_columns, crate::specs::Arranged::arranged))]
pub(crate) fn add_columns(
    alloc: Global,
    state: &mut Altering,
    columns: &[ColumnWords],
) -> Result<(), Stop>
    ensures { (look : Look) → Follows (λ _. state.new) result (run look (add_columns columns.now state.old)) }
{
    let before = ranks_of(alloc, &state.parts)?;
    each_added(alloc, state, columns)?;
    each_keys_added(alloc, state, columns)?;
    arrange(alloc, &before, &mut state.parts)?;
    Ok(())
}

fn each_added(alloc: Global, state: &mut Altering, columns: &[ColumnWords]) -> Result<(), Stop>
    ensures { (look : Look) → Follows (λ _. state.new) result (run look (over (column_added None) state.old columns.now)) }
{
    'columns: for words in columns {
        column_added(alloc, state, words, &None)?;
    }
    Ok(())
}

fn each_keys_added(alloc: Global, state: &mut Altering, columns: &[ColumnWords]) -> Result<(), Stop>
    ensures { (look : Look) → Follows (λ _. state.new) result (run look (over column_keys_added state.old columns.now)) }
{
    'columns: for words in columns {
        column_keys_added(alloc, state, words)?;
    }
    Ok(())
}

/// One column more. A name that is there: 1060. The column by itself. AFTER an unknown column: 1054.
#[tactic(auto, using(dd_catalog::specs::WalkLaws::run_bind), unfolding(crate::specs::Columns::column_added))]
fn column_added(
    alloc: Global,
    state: &mut Altering,
    words: &ColumnWords,
    place: &Option<Place>,
) -> Result<(), Stop>
    ensures { (look : Look) → Follows (λ _. state.new) result (run look (column_added place.now state.old words.now)) }
{
    allow_name(alloc, state.parts.columns.as_slice(), &words.name)?;
    let column = check_column(alloc, words)?;
    allow_place(alloc, &state.parts, place)?;
    let end = state.parts.columns.len();
    put_column(alloc, &mut state.parts.columns, place, end, column)?;
    note_null(&mut state.nulls, is_null_in(words), &words.name)?;
    Ok(())
}

/// Refuses a name that a column has: 1060.
fn allow_name(alloc: Global, columns: &[ColumnDef], name: &Name) -> Result<(), Stop>
    ensures { (look : Look) → Follows (λ _. tt) result (run look (refuse_if (has_column columns.now name.now) (dup_fieldname name.now))) }
{
    if has_column(columns, name) {
        return Err(rules_refusals::dup_fieldname(alloc, name)?);
    }
    Ok(())
}

/// The keys that the column says, behind the others.
#[tactic(auto, using(dd_catalog::specs::WalkLaws::run_bind), unfolding(crate::specs::Columns::column_keys_added))]
pub(crate) fn column_keys_added(
    alloc: Global,
    state: &mut Altering,
    words: &ColumnWords,
) -> Result<(), Stop>
    ensures { (look : Look) → Follows (λ _. state.new) result (run look (column_keys_added state.old words.now)) }
{
    let keys = own_keys(alloc, words)?;
    each_key_added(
        alloc,
        state.nulls.as_slice(),
        &mut state.parts,
        keys.as_slice(),
    )
}

fn each_key_added(
    alloc: Global,
    nulls: &[Name],
    parts: &mut TableParts,
    keys: &[KeyWords],
) -> Result<(), Stop>
    ensures { (look : Look) → Follows (λ _. parts.new) result (run look (over (key_added nulls.now) parts.old keys.now)) }
{
    'keys: for key in keys {
        key_added(alloc, nulls, parts, key)?;
    }
    Ok(())
}
