// The parent of a foreign key (MySQL 8.0 Reference Manual, 13.1.20.5).
ghost use Rattle.std.specs.Prelude.{◌≡◌, IfOk, map};
ghost use Rattle.std.specs.List.{list_any};
ghost use Rattle.std.specs.Option.{option_copied};
ghost use Rattle.dd_catalog.specs.Catalog.{is_same_object};
ghost use Rattle.dd_catalog.specs.Sights.{sight};
ghost use Rattle.dd_catalog.specs.Walks.{run, look_at};
ghost use Rattle.dd_catalog.specs.WalkLaws.{Look};
ghost use Rattle.dd_catalog.specs.Follow.{Follows, sights};
ghost use Rattle.rules_elements.specs.ForeignKeys.{table_seen, parent_of, begin_with, has_index_from, name_of_column, spelled};

use crate::keys::column_named;
use dd_catalog::{Lookup, Object, Stop, object_at};
use dd_definitions::{ColumnDef, IndexDef, TableParts};
use dd_names::{List, Name, ObjName, ObjectKey, TryCopy};
use std::alloc::{AllocError, Global};

/// The parent of a foreign key: the table itself as it is so far, or the table that stands there; where none does, 1824.
#[tactic(auto, using(dd_catalog::specs::WalkLaws::run_bind), unfolding(crate::specs::ForeignKeys::parent_of))]
pub fn parent_of<'a, L: Lookup>(
    alloc: Global,
    parts: &'a TableParts,
    parent: &ObjName,
    look: &'a L,
) -> Result<&'a TableParts, Stop>
    ensures { Follows (λ found. found.now) result (run (sights (L.known look.now)) (parent_of parts.now parent.now)) }
{
    if is_same_object(parent, &parts.name) {
        return Ok(parts);
    }
    table_seen(alloc, &parent.name, object_at(look, parent)?)
}

fn table_seen<'a>(alloc: Global, parent: &Name, object: &'a Object) -> Result<&'a TableParts, Stop>
    ensures { (look : Look) → Follows (λ found. found.now) result (run look (table_seen parent.now (sight object.now))) }
{
    match object {
        Object::Table { def, .. } => Ok(def.parts()),
        _ => Err(rules_refusals::fk_cannot_open_parent(alloc, parent)?),
    }
}

/// Whether both are of one schema and one name.
pub fn is_same_object(a: &ObjName, b: &ObjName) -> bool
    ensures { result ≡ is_same_object a.now b.now }
{
    a.schema == b.schema && a.name == b.name
}

/// Whether some index begins with the names, in any case.
pub(crate) fn has_index_from(indexes: &[IndexDef], names: &[Name]) -> bool
    ensures { result ≡ has_index_from indexes.now names.now }
{
    indexes
        .iter()
        .any(|index| begin_with(index.columns.as_slice(), names))
}

fn begin_with(names: &[Name], others: &[Name]) -> bool
    ensures { result ≡ begin_with names.now others.now }
{
    match others {
        [] => true,
        [other, others @ ..] => match names {
            [] => false,
            [name, names @ ..] => name.same(other) && begin_with(names, others),
        },
    }
}

/// The names as the table spells them.
pub(crate) fn spelled_all(
    alloc: Global,
    columns: &[ColumnDef],
    names: &[Name],
) -> Result<List<Name>, AllocError>
    ensures { IfOk result (λ found. found ≡ map (spelled columns.now) names.now) }
{
    let mut found = List::new(alloc);
    'names: for name in names {
        found.push(spelled(columns, name).copy()?)?;
    }
    Ok(found)
}

fn spelled<'a>(columns: &'a [ColumnDef], name: &'a Name) -> &'a Name
    ensures { result.now ≡ spelled columns.now name.now }
{
    match column_named(columns, name) {
        None => name,
        Some(column) => &column.name,
    }
}
