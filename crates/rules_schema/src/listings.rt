// SHOW DATABASES and SHOW TABLES (MySQL 8.0 Reference Manual, 13.7.7).
ghost use Rattle.std.specs.Prelude.{◌≡◌, ◌++◌, IfOk, map, codes};
ghost use Rattle.std.specs.Option.{option_copied};
ghost use Rattle.dd_catalog.specs.Sights.{sight};
ghost use Rattle.dd_catalog.specs.Walks.{run};
ghost use Rattle.dd_catalog.specs.WalkLaws.{Look};
ghost use Rattle.dd_catalog.specs.Follow.{Follows, sights};
ghost use Rattle.rules_outcome.specs.Decided.{Decides, AreBefore, HaveIds};
ghost use Rattle.rules_schema.specs.Listings.{names_seen, row_of, names_listed, show_databases, chosen_schema, show_tables};

use dd_catalog::{Lookup, Object, Stop, look_at, objects_at};
use dd_names::{List, Name, ObjectKey, Text};
use rules_named::{first_given, schema_there};
use rules_outcome::Decided;
use sql_ast::SessionState;
use sql_types::{Cell, ListRow, Listing};
use std::alloc::{AllocError, Global};

/// What SHOW DATABASES comes to: the schemas in byte order.
#[tactic(auto, using(dd_catalog::specs::WalkLaws::run_bind), unfolding(crate::specs::Listings::show_databases))]
pub fn show_databases<L: Lookup>(alloc: Global, look: &L) -> Result<Decided, Stop>
    ensures exact { Decides result (run (sights (L.known look.now)) show_databases) }
    ensures before { IfOk result (λ d. AreBefore (L.known look.now) d) }
    ensures ids { IfOk result (λ d. HaveIds (L.known look.now) d) }
{
    let object = look_at(look, &ObjectKey::Schemas)?;
    let header = Text::of(alloc, "Database")?;
    Ok(Decided::Rows(names_listed(alloc, header, names_seen(object))?))
}

/// What SHOW TABLES comes to: the tables and views of the schema in byte order; 1046 without a schema, 1049 where it isn't there.
#[tactic(auto, using(dd_catalog::specs::WalkLaws::run_bind), unfolding(crate::specs::Listings::show_tables))]
pub fn show_tables<L: Lookup>(
    alloc: Global,
    session: &SessionState,
    named: &Option<Name>,
    look: &L,
) -> Result<Decided, Stop>
    ensures exact { Decides result (run (sights (L.known look.now)) (show_tables session.now named.now)) }
    ensures before { IfOk result (λ d. AreBefore (L.known look.now) d) }
    ensures ids { IfOk result (λ d. HaveIds (L.known look.now) d) }
{
    let schema = chosen_schema(alloc, first_given(named, &session.current))?;
    schema_there(alloc, schema, look)?;
    let object = objects_at(look, schema)?;
    let header = tables_header(alloc, schema)?;
    Ok(Decided::Rows(names_listed(alloc, header, names_seen(object))?))
}

fn chosen_schema<'a>(alloc: Global, schema: Option<&'a Name>) -> Result<&'a Name, Stop>
    ensures { (look : Look) → Follows (λ chosen. chosen.now) result (run look (chosen_schema (option_copied schema.entry))) }
{
    match schema {
        None => Err(rules_refusals::no_db(alloc)),
        Some(schema) => Ok(schema),
    }
}

fn tables_header(alloc: Global, schema: &Name) -> Result<Text, AllocError>
    ensures { IfOk result (λ header. header ≡ codes "Tables_in_" ++ schema.now) }
{
    let mut header = Text::of(alloc, "Tables_in_")?;
    header.push_str(schema.as_str())?;
    Ok(header)
}

/// The names in a list that stands at a key.
pub(crate) fn names_seen(object: &Object) -> &[Name]
    ensures { result.now ≡ names_seen (sight object.now) }
{
    match object {
        Object::Schemas(names) => names.as_slice(),
        Object::Objects(names) => names.as_slice(),
        _ => &[],
    }
}

fn names_listed(alloc: Global, header: Text, names: &[Name]) -> Result<Listing, AllocError>
    ensures { IfOk result (λ listing. listing ≡ names_listed header names.now) }
{
    let mut titles = List::new(alloc);
    titles.push(header)?;
    Ok(Listing {
        header: titles,
        rows: rows_of(alloc, names)?,
    })
}

fn rows_of(alloc: Global, names: &[Name]) -> Result<List<ListRow>, AllocError>
    ensures { IfOk result (λ rows. rows ≡ map row_of names.now) }
{
    let mut rows = List::new(alloc);
    'names: for name in names {
        rows.push(row_of(alloc, name)?)?;
    }
    Ok(rows)
}

fn row_of(alloc: Global, name: &Name) -> Result<ListRow, AllocError>
    ensures { IfOk result (λ row. row ≡ row_of name.now) }
{
    let mut row = List::new(alloc);
    row.push(Cell::Value(name.to_text()?))?;
    Ok(row)
}
