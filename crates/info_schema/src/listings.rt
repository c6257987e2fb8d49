// TABLE, which lists a table of INFORMATION_SCHEMA (MySQL 8.0 Reference Manual, 13.2.16 and 26.1).
ghost use Rattle.std.specs.Prelude.{◌≡◌, ◌++◌, [], OnOk, IfOk, map};
ghost use Rattle.dd_catalog.specs.Sights.{sight};
ghost use Rattle.dd_catalog.specs.Walks.{run, over};
ghost use Rattle.dd_catalog.specs.Follow.{Follows, sights};
ghost use Rattle.rules_outcome.specs.Decided.{Decides, AreBefore, HaveIds};
ghost use Rattle.rules_schema.specs.Listings.{names_seen};
ghost use Rattle.info_schema.specs.Tables.{schemata_row};
ghost use Rattle.info_schema.specs.Listings.{with_object, with_schema, objects_listing, schemata_listing, listing, information};

use crate::objects::{push_schema, push_seen};
use crate::tables::{InfoTable, header_of, table_named};
use dd_catalog::{Lookup, Object, Stop, look_at, object_at, objects_at};
use dd_names::{List, Name, ObjName, ObjectKey, TryCopy};
use rules_outcome::Decided;
use rules_refusals::unknown_table;
use sql_types::{ListRow, Listing};
use std::alloc::{AllocError, Global};

/// What TABLE of a table of INFORMATION_SCHEMA comes to: its rows by schema and object, both in byte order; 1109 where there is
/// no such table.
#[tactic(auto, using(dd_catalog::specs::WalkLaws::run_bind), unfolding(crate::specs::Listings::information))]
pub fn information<L: Lookup>(alloc: Global, name: &Name, look: &L) -> Result<Decided, Stop>
    ensures exact { Decides result (run (sights (L.known look.now)) (information name.now)) }
    ensures before { IfOk result (λ d. AreBefore (L.known look.now) d) }
    ensures ids { IfOk result (λ d. HaveIds (L.known look.now) d) }
{
    match table_named(name) {
        None => Err(unknown_table(alloc, name)?),
        Some(table) => listing(alloc, table, look),
    }
}

fn listing<L: Lookup>(alloc: Global, table: InfoTable, look: &L) -> Result<Decided, Stop>
    ensures exact { Decides result (run (sights (L.known look.now)) (listing table)) }
    ensures before { IfOk result (λ d. AreBefore (L.known look.now) d) }
    ensures ids { IfOk result (λ d. HaveIds (L.known look.now) d) }
{
    match table {
        InfoTable::Schemata => schemata_listing(alloc, look),
        InfoTable::Tables
        | InfoTable::Columns
        | InfoTable::Statistics
        | InfoTable::KeyColumnUsage
        | InfoTable::ReferentialConstraints
        | InfoTable::Views => objects_listing(alloc, table, look),
    }
}

#[tactic(auto, using(dd_catalog::specs::WalkLaws::run_bind), unfolding(crate::specs::Listings::schemata_listing))]
fn schemata_listing<L: Lookup>(alloc: Global, look: &L) -> Result<Decided, Stop>
    ensures exact { Decides result (run (sights (L.known look.now)) schemata_listing) }
    ensures before { IfOk result (λ d. AreBefore (L.known look.now) d) }
    ensures ids { IfOk result (λ d. HaveIds (L.known look.now) d) }
{
    let object = look_at(look, &ObjectKey::Schemas)?;
    let header = header_of(alloc, InfoTable::Schemata)?;
    Ok(Decided::Rows(Listing {
        header,
        rows: schema_rows(alloc, names_seen(object))?,
    }))
}

fn schema_rows(alloc: Global, names: &[Name]) -> Result<List<ListRow>, AllocError>
    ensures { IfOk result (λ rows. rows ≡ map schemata_row names.now) }
{
    let mut rows = List::new(alloc);
    'names: for name in names {
        push_schema(alloc, &mut rows, name)?;
    }
    Ok(rows)
}

#[tactic(auto, using(dd_catalog::specs::WalkLaws::run_bind), unfolding(crate::specs::Listings::objects_listing))]
fn objects_listing<L: Lookup>(alloc: Global, table: InfoTable, look: &L) -> Result<Decided, Stop>
    ensures exact { Decides result (run (sights (L.known look.now)) (objects_listing table)) }
    ensures before { IfOk result (λ d. AreBefore (L.known look.now) d) }
    ensures ids { IfOk result (λ d. HaveIds (L.known look.now) d) }
{
    let object = look_at(look, &ObjectKey::Schemas)?;
    let rows = schemas_rows(alloc, table, names_seen(object), look)?;
    Ok(Decided::Rows(Listing {
        header: header_of(alloc, table)?,
        rows,
    }))
}

fn schemas_rows<L: Lookup>(
    alloc: Global,
    table: InfoTable,
    schemas: &[Name],
    look: &L,
) -> Result<List<ListRow>, Stop>
    ensures { Follows (λ rows. rows) result (run (sights (L.known look.now)) (over (with_schema table) [] schemas.now)) }
{
    let mut rows = List::new(alloc);
    'schemas: for schema in schemas {
        add_schema(alloc, &mut rows, table, schema, look)?;
    }
    Ok(rows)
}

#[tactic(auto, using(dd_catalog::specs::WalkLaws::run_bind), unfolding(crate::specs::Listings::with_schema))]
fn add_schema<L: Lookup>(
    alloc: Global,
    rows: &mut List<ListRow>,
    table: InfoTable,
    schema: &Name,
    look: &L,
) -> Result<(), Stop>
    ensures { Follows (λ _. rows.new) result (run (sights (L.known look.now)) (with_schema table rows.old schema.now)) }
{
    let object = objects_at(look, schema)?;
    add_objects(alloc, rows, table, schema, names_seen(object), look)
}

fn add_objects<L: Lookup>(
    alloc: Global,
    rows: &mut List<ListRow>,
    table: InfoTable,
    schema: &Name,
    names: &[Name],
    look: &L,
) -> Result<(), Stop>
    ensures { Follows (λ _. rows.new) result (run (sights (L.known look.now)) (over (with_object table schema.now) rows.old names.now)) }
{
    'names: for name in names {
        add_object(alloc, rows, table, schema, name, look)?;
    }
    Ok(())
}

#[tactic(auto, using(dd_catalog::specs::WalkLaws::run_bind), unfolding(crate::specs::Listings::with_object))]
fn add_object<L: Lookup>(
    alloc: Global,
    rows: &mut List<ListRow>,
    table: InfoTable,
    schema: &Name,
    name: &Name,
    look: &L,
) -> Result<(), Stop>
    ensures { Follows (λ _. rows.new) result (run (sights (L.known look.now)) (with_object table schema.now rows.old name.now)) }
{
    let object = ObjName {
        schema: schema.copy()?,
        name: name.copy()?,
    };
    let seen = object_at(look, &object)?;
    Ok(push_seen(alloc, rows, table, seen)?)
}

/// The names in a list that stands at a key.
fn names_seen(object: &Object) -> &[Name]
    ensures { result.now ≡ names_seen (sight object.now) }
{
    match object {
        Object::Schemas(names) => names.as_slice(),
        Object::Objects(names) => names.as_slice(),
        _ => &[],
    }
}
