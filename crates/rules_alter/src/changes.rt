// CHANGE COLUMN, MODIFY COLUMN and RENAME COLUMN (MySQL 8.0 Reference Manual, 13.1.9).
ghost use Rattle.std.specs.Prelude.{◌≡◌, [], ◌∷◌, ◌++◌, ◌&&◌, if◌then◌else◌, map, IfOk, OnOk};
ghost use Rattle.dd_catalog.specs.WalkLaws.{Look};
ghost use Rattle.dd_catalog.specs.Walks.{refuse_if, run};
ghost use Rattle.dd_catalog.specs.Follow.{Follows};
ghost use Rattle.rules_refusals.specs.Refusals.{dup_fieldname, primary_cant_have_null};
ghost use Rattle.rules_create.specs.Tables.{has_column};
ghost use Rattle.rules_alter.specs.Altering.{column_renamed, other_columns, the_name, unknown_column};
ghost use Rattle.rules_alter.specs.Columns.{allowed_change, change_column, changed, column_changed, column_keys_added, is_in_primary, is_nulled_key, never_nulled, null_unless, redefined, remade, rename_column, with_definition};

use crate::arranged::{arrange, ranks_of};
use crate::columns::{column_keys_added, is_null_in, note_null};
use crate::drops::{is_among, other_columns};
use crate::places::{allow_other_place, has_other, place_at, put_column, unknown};
use crate::renames::column_renamed;
use crate::states::Altering;
use dd_catalog::Stop;
use dd_definitions::{ColumnDef, IndexDef, TableParts};
use dd_names::{List, Name, TryCopy};
use rules_create::is_primary;
use rules_elements::{check_column, column_named};
use sql_ast::Place;
use sql_types::ColumnWords;
use std::alloc::{AllocError, Global};

/// How the table spells the column of that name; where there is none, 1054.
pub(crate) fn known_name(alloc: Global, parts: &TableParts, name: &Name) -> Result<Name, Stop>
    ensures { (look : Look) → Follows (λ column. column) result (run look (the_name (unknown_column parts.now name.now) parts.now name.now)) }
{
    match column_named(parts.columns.as_slice(), name) {
        Some(column) => Ok(column.name.copy()?),
        None => Err(unknown(alloc, parts, name)?),
    }
}

/// CHANGE COLUMN, and MODIFY COLUMN, which is CHANGE to the same name. Unknown: 1054.
#[tactic(auto, using(dd_catalog::specs::WalkLaws::run_bind), unfolding(crate::specs::Columns::change_column))]
pub(crate) fn change_column(
    alloc: Global,
    state: &mut Altering,
    name: &Name,
    words: &ColumnWords,
    place: &Option<Place>,
) -> Result<(), Stop>
    ensures { (look : Look) → Follows (λ _. state.new) result (run look (change_column name.now words.now place.now state.old)) }
{
    let old = known_name(alloc, &state.parts, name)?;
    changed(alloc, state, &old, words, place)
}

/// The column of this spelling has the definition that is written, and the indexes stand in their order.
#[tactic(auto, using(dd_catalog::specs::WalkLaws::run_bind), unfolding(crate::specs::Columns::changed, crate::specs::Arranged::arranged))]
fn changed(
    alloc: Global,
    state: &mut Altering,
    old: &Name,
    words: &ColumnWords,
    place: &Option<Place>,
) -> Result<(), Stop>
    ensures { (look : Look) → Follows (λ _. state.new) result (run look (changed old.now words.now place.now state.old)) }
{
    let before = ranks_of(alloc, &state.parts)?;
    never_nulled(alloc, state, old, words, place)?;
    arrange(alloc, &before, &mut state.parts)?;
    Ok(())
}

/// The column with the definition that is written. NULL or DEFAULT NULL for a column of the primary key: 1171.
#[tactic(auto, using(dd_catalog::specs::WalkLaws::run_bind), unfolding(crate::specs::Columns::never_nulled))]
fn never_nulled(
    alloc: Global,
    state: &mut Altering,
    old: &Name,
    words: &ColumnWords,
    place: &Option<Place>,
) -> Result<(), Stop>
    ensures { (look : Look) → Follows (λ _. state.new) result (run look (never_nulled old.now words.now place.now state.old)) }
{
    let is_refused = is_nulled_key(old, words, state);
    remake(alloc, state, old, words, place)?;
    allow_null(alloc, is_refused)
}

/// Whether NULL or DEFAULT NULL is written for a column of the primary key.
fn is_nulled_key(old: &Name, words: &ColumnWords, state: &Altering) -> bool
    ensures { result ≡ is_nulled_key old.now words.now state.now }
{
    is_in_primary(state.parts.indexes.as_slice(), old) && is_null_in(words)
}

/// The column with the definition that is written, and then its keys.
#[tactic(auto, using(dd_catalog::specs::WalkLaws::run_bind), unfolding(crate::specs::Columns::remade))]
fn remake(
    alloc: Global,
    state: &mut Altering,
    old: &Name,
    words: &ColumnWords,
    place: &Option<Place>,
) -> Result<(), Stop>
    ensures { (look : Look) → Follows (λ _. state.new) result (run look (remade old.now words.now place.now state.old)) }
{
    let made = allow_change(alloc, &state.parts, old, words, place)?;
    redefined_with_keys(alloc, state, old, words, place, made)
}

/// The column with its new definition, and then its keys.
fn redefined_with_keys(
    alloc: Global,
    state: &mut Altering,
    old: &Name,
    words: &ColumnWords,
    place: &Option<Place>,
    made: ColumnDef,
) -> Result<(), Stop>
    ensures { (look : Look) → Follows (λ _. state.new) result (run look (column_keys_added (redefined old.now words.now place.now made state.old) words.now)) }
{
    redefine(alloc, state, old, words, place, made)?;
    column_keys_added(alloc, state, words)
}

/// The column of this spelling has the definition that was made, and stays NOT NULL where it is one of the primary key.
#[tactic(auto, unfolding(crate::specs::Columns::redefined))]
fn redefine(
    alloc: Global,
    state: &mut Altering,
    old: &Name,
    words: &ColumnWords,
    place: &Option<Place>,
    made: ColumnDef,
) -> Result<(), AllocError>
    ensures { OnOk result (state.new ≡ redefined old.now words.now place.now made state.old) }
{
    let is_key = is_in_primary(state.parts.indexes.as_slice(), old);
    let column = null_unless(is_key, made);
    column_changed(alloc, state, old, place, column, is_null_in(words))
}

/// The definition that is written. The new name at another column: 1060. AFTER an unknown column or itself: 1054.
#[tactic(auto, using(dd_catalog::specs::WalkLaws::run_bind), unfolding(crate::specs::Columns::allowed_change))]
fn allow_change(
    alloc: Global,
    parts: &TableParts,
    old: &Name,
    words: &ColumnWords,
    place: &Option<Place>,
) -> Result<ColumnDef, Stop>
    ensures { (look : Look) → Follows (λ made. made) result (run look (allowed_change old.now words.now place.now parts.now)) }
{
    allow_name(alloc, parts.columns.as_slice(), old, &words.name)?;
    let made = check_column(alloc, words)?;
    allow_other_place(alloc, parts, old, place)?;
    Ok(made)
}

/// Refuses a name that another column than the one has: 1060.
fn allow_name(alloc: Global, columns: &[ColumnDef], one: &Name, name: &Name) -> Result<(), Stop>
    ensures { (look : Look) → Follows (λ _. tt) result (run look (refuse_if (has_column (other_columns one.now columns.now) name.now) (dup_fieldname name.now))) }
{
    if has_other(columns, one, name) {
        return Err(rules_refusals::dup_fieldname(alloc, name)?);
    }
    Ok(())
}

fn allow_null(alloc: Global, is_refused: bool) -> Result<(), Stop>
    ensures { (look : Look) → Follows (λ _. tt) result (run look (refuse_if is_refused primary_cant_have_null)) }
{
    if is_refused {
        return Err(rules_refusals::primary_cant_have_null(alloc));
    }
    Ok(())
}

fn is_in_primary(indexes: &[IndexDef], name: &Name) -> bool
    ensures { result ≡ is_in_primary indexes.now name.now }
{
    indexes.iter().any(|index| is_primary(index) && is_among(index.columns.as_slice(), name))
}

/// The column, which is NOT NULL where it is one of the primary key.
fn null_unless(is_key: bool, column: ColumnDef) -> ColumnDef
    ensures { result ≡ null_unless is_key column }
{
    let mut column = column;
    if is_key {
        column.nullable = false;
    }
    column
}

/// The column has the new name everywhere, and the new definition.
fn column_changed(
    alloc: Global,
    state: &mut Altering,
    from: &Name,
    place: &Option<Place>,
    column: ColumnDef,
    is_null: bool,
) -> Result<(), AllocError>
    ensures { OnOk result (state.new ≡ column_changed from.now place.now column is_null state.old) }
{
    column_renamed(alloc, state, from, &column.name)?;
    note_null(&mut state.nulls, is_null, &column.name)?;
    with_definition(alloc, &mut state.parts.columns, place, column)
}

/// The definition in the place of the column of its name, or at the place that is written.
fn with_definition(
    alloc: Global,
    columns: &mut List<ColumnDef>,
    place: &Option<Place>,
    column: ColumnDef,
) -> Result<(), AllocError>
    ensures { OnOk result (columns.new ≡ with_definition place.now column columns.old) }
{
    let stood = place_at(columns.as_slice(), &column.name);
    let others = other_columns(alloc, &column.name, columns.as_slice())?;
    *columns = others;
    let stood = stood.min(columns.len());
    put_column(alloc, columns, place, stood, column)
}

/// RENAME COLUMN. Unknown: 1054. The new name at another column: 1060.
#[tactic(auto, using(dd_catalog::specs::WalkLaws::run_bind), unfolding(crate::specs::Columns::rename_column))]
pub(crate) fn rename_column(
    alloc: Global,
    state: &mut Altering,
    from: &Name,
    to: &Name,
) -> Result<(), Stop>
    ensures { (look : Look) → Follows (λ _. state.new) result (run look (rename_column from.now to.now state.old)) }
{
    let old = known_name(alloc, &state.parts, from)?;
    allow_name(alloc, state.parts.columns.as_slice(), &old, to)?;
    column_renamed(alloc, state, &old, to)?;
    Ok(())
}
