// Where a column comes to stand among the others.
ghost use Rattle.std.specs.Prelude.{◌≡◌, ◌+◌, ◌≤◌, ◌&&◌, length, min, not, IfOk, OnOk};
ghost use Rattle.std.specs.List.{list_any};
ghost use Rattle.dd_names.specs.Names.{same};
ghost use Rattle.dd_catalog.specs.WalkLaws.{Look};
ghost use Rattle.dd_catalog.specs.Walks.{refuse_if, run};
ghost use Rattle.dd_catalog.specs.Follow.{Follows};
ghost use Rattle.rules_create.specs.Tables.{has_column};
ghost use Rattle.rules_alter.specs.Altering.{other_columns, unknown_column};
ghost use Rattle.rules_alter.specs.Columns.{allowed_place, place_at, place_or, put_at};

use dd_catalog::Stop;
use dd_definitions::{ColumnDef, TableParts};
use dd_names::{List, Name};
use sql_ast::Place;
use std::alloc::{AllocError, Global};
use std::mem;

/// Refuses a place behind a column that isn't there: 1054.
pub(crate) fn allow_place(
    alloc: Global,
    parts: &TableParts,
    place: &Option<Place>,
) -> Result<(), Stop>
    ensures { (look : Look) → Follows (λ _. tt) result (run look (allowed_place parts.now parts.now.columns place.now)) }
{
    match place {
        Some(Place::After(name)) => allow_behind(
            alloc,
            parts,
            name,
            has_column(parts.columns.as_slice(), name),
        ),
        _ => Ok(()),
    }
}

/// Refuses a place behind a column that isn't there, or behind the column itself: 1054.
pub(crate) fn allow_other_place(
    alloc: Global,
    parts: &TableParts,
    column: &Name,
    place: &Option<Place>,
) -> Result<(), Stop>
    ensures { (look : Look) → Follows (λ _. tt) result (run look (allowed_place parts.now (other_columns column.now parts.now.columns) place.now)) }
{
    match place {
        Some(Place::After(name)) => allow_behind(
            alloc,
            parts,
            name,
            has_other(parts.columns.as_slice(), column, name),
        ),
        _ => Ok(()),
    }
}

fn allow_behind(alloc: Global, parts: &TableParts, name: &Name, is_there: bool) -> Result<(), Stop>
    ensures { (look : Look) → Follows (λ _. tt) result (run look (refuse_if (not is_there) (unknown_column parts.now name.now))) }
{
    if is_there {
        return Ok(());
    }
    Err(unknown(alloc, parts, name)?)
}

/// The refusal of a column that the table doesn't have: 1054.
pub(crate) fn unknown(alloc: Global, parts: &TableParts, name: &Name) -> Result<Stop, AllocError>
    ensures { IfOk result (λ stop. stop ≡ Stop.Refused (unknown_column parts.now name.now)) }
{
    rules_refusals::bad_field_error(alloc, name.as_str(), parts.name.name.as_str())
}

/// Whether another column than the one has the name, in any case.
pub(crate) fn has_other(columns: &[ColumnDef], one: &Name, name: &Name) -> bool
    ensures { result ≡ has_column (other_columns one.now columns.now) name.now }
{
    has_named_other(columns, one, name)
}

fn has_named_other(columns: &[ColumnDef], one: &Name, name: &Name) -> bool
    ensures { result ≡ list_any (λ column. not (same column.name one.now) && same column.name name.now) columns.now }
{
    columns
        .iter()
        .any(|column| !column.name.same(one) && column.name.same(name))
}

/// How many of the columns stand in front of the one of that name; all where there is none.
pub(crate) fn place_at(columns: &[ColumnDef], name: &Name) -> usize
    ensures place { result ≡ place_at name.now columns.now }
    ensures within { result ≤ length columns.now }
{
    'columns: for place in 0..columns.len() {
        if columns[place].name.same(name) {
            return place;
        }
    }
    columns.len()
}

/// The place that is written, or else this one.
fn place_or(place: &Option<Place>, stood: usize, others: &[ColumnDef]) -> usize
    requires { stood ≤ length others.now }
    ensures place { result ≡ place_or place.now stood others.now }
    ensures within { result ≤ length others.now }
{
    match place {
        None => stood,
        Some(Place::First) => 0,
        Some(Place::After(name)) => place_behind(others, name),
    }
}

fn place_behind(others: &[ColumnDef], name: &Name) -> usize
    ensures place { result ≡ min (place_at name.now others.now + 1) (length others.now) }
    ensures within { result ≤ length others.now }
{
    let place = place_at(others, name);
    if place < others.len() {
        place + 1
    } else {
        others.len()
    }
}

/// Puts the column at the place that is written, or else at this one.
pub(crate) fn put_column(
    alloc: Global,
    columns: &mut List<ColumnDef>,
    place: &Option<Place>,
    stood: usize,
    column: ColumnDef,
) -> Result<(), AllocError>
    requires { stood ≤ length columns.old }
    ensures { OnOk result (columns.new ≡ put_at place.now stood column columns.old) }
{
    let at = place_or(place, stood, columns.as_slice());
    let mut items = mem::replace(columns, List::new(alloc)).into_vec();
    items.insert(at, column)?;
    *columns = List::from_vec(items);
    Ok(())
}

/// Whether a column has the name, in any case.
pub(crate) fn has_column(columns: &[ColumnDef], name: &Name) -> bool
    ensures { result ≡ has_column columns.now name.now }
{
    columns.iter().any(|column| column.name.same(name))
}
