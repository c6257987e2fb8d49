// CREATE TABLE LIKE (MySQL 8.0 Reference Manual, 13.1.20.3).
ghost use Rattle.std.specs.Prelude.{◌≡◌, Option, Some, None, IfOk};
ghost use Rattle.dd_names.specs.declared.object_name.ObjectKey.{ObjectKey as Key};
ghost use Rattle.dd_names.specs.declared.object_name.ObjectKey.TheVariants as keys;
ghost use Rattle.dd_catalog.specs.declared.object.Object.{Object as Standing};
ghost use Rattle.dd_catalog.specs.declared.object.Object.TheVariants as objects;
ghost use Rattle.dd_catalog.specs.Sights.{sight};
ghost use Rattle.dd_catalog.specs.Walks.{run};
ghost use Rattle.dd_catalog.specs.WalkLaws.{Look};
ghost use Rattle.dd_catalog.specs.Follow.{Follows, sights};
ghost use Rattle.rules_refusals.specs.Refusals.{table_exists};
ghost use Rattle.rules_outcome.specs.Choices.{FreshTable, change};
ghost use Rattle.rules_outcome.specs.Decided.{change_of, choice_of, Decides, AreBefore, HasIds, HaveIds};
ghost use Rattle.rules_named.specs.Named.{unless};
ghost use Rattle.rules_create.specs.Tables.{table_made};
ghost use Rattle.rules_tables.specs.Likes.{both_named, both_resolved, both_schemas_there, create_like, like, like_named, source_seen, two};
ghost use Rattle.rules_tables.specs.Named.{named};

use crate::edits::one_edit;
use dd_catalog::{Lookup, Object, Stop, object_at};
use dd_definitions::{TableDef, TableParts};
use dd_names::{List, ObjName, ObjectKey, TryCopy, both};
use rules_named::{Placed, resolved, schema_id, schema_there};
use rules_outcome::{After, Decided, Edit, Edits};
use sql_ast::SessionState;
use sql_types::ObjRef;
use std::alloc::{AllocError, Global};

/// What CREATE TABLE LIKE comes to. The source absent: 1146; a view: 1347. Present: done without change with IF NOT EXISTS, else
/// 1050. Then a table with the columns and the indexes of the source.
#[tactic(auto, using(dd_catalog::specs::WalkLaws::run_bind), unfolding(crate::specs::Likes::create_like))]
pub fn create_like<L: Lookup>(
    alloc: Global,
    session: &SessionState,
    if_not_exists: bool,
    table: &ObjRef,
    source: &ObjRef,
    look: &L,
) -> Result<Decided, Stop>
    ensures exact { Decides result (run (sights (L.known look.now)) (create_like session.now if_not_exists table.now source.now)) }
    ensures before { IfOk result (λ d. AreBefore (L.known look.now) d) }
    ensures ids { IfOk result (λ d. HaveIds (L.known look.now) d) }
{
    let names = both_named(alloc, session, table, source, look)?;
    like_named(alloc, session, if_not_exists, &names, look)
}

/// The statement over two names, whose schemas are there.
#[tactic(auto, using(dd_catalog::specs::WalkLaws::run_bind), unfolding(crate::specs::Likes::like_named))]
fn like_named<L: Lookup>(
    alloc: Global,
    session: &SessionState,
    if_not_exists: bool,
    names: &Names,
    look: &L,
) -> Result<Decided, Stop>
    ensures exact { Decides result (run (sights (L.known look.now)) (like_named session.now if_not_exists (named names.now))) }
    ensures before { IfOk result (λ d. AreBefore (L.known look.now) d) }
    ensures ids { L.known look.now (keys.Schema names.now.table.name.schema) ≡ Some (objects.Schema names.now.table.schema) → IfOk result (λ d. HaveIds (L.known look.now) d) }
{
    let standing = object_at(look, &names.source)?;
    let copied = source_seen(alloc, &names.source, standing)?;
    match object_at(look, &names.table.name)? {
        Object::Absent => Ok(Decided::Edits(table_like(alloc, session, &names.table, copied)?)),
        _ => present(alloc, if_not_exists, &names.table.name),
    }
}

/// The name of the table that is made, and of its source.
#[derive(Drop)]
pub(crate) struct Names {
    pub table: Placed,
    pub source: ObjName,
}

/// The two names, whose schemas are there: first 1046 of each, and then 1049.
#[tactic(auto, using(dd_catalog::specs::WalkLaws::run_bind), unfolding(crate::specs::Likes::both_named))]
fn both_named<L: Lookup>(
    alloc: Global,
    session: &SessionState,
    table: &ObjRef,
    source: &ObjRef,
    look: &L,
) -> Result<Names, Stop>
    ensures seen { Follows named result (run (sights (L.known look.now)) (both_named session.now table.now source.now)) }
    ensures known { IfOk result (λ names. L.known look.now (keys.Schema names.table.name.schema) ≡ Some (objects.Schema names.table.schema)) }
{
    let (name, source) = both_resolved(alloc, session, table, source)?;
    match both_schemas_there(alloc, &name, &source, look) {
        Ok(schema) => Ok(Names {
            table: Placed { name, schema },
            source,
        }),
        Err(stop) => Err(stop),
    }
}

/// The two names with their schemas; 1046.
#[tactic(auto, using(dd_catalog::specs::WalkLaws::run_bind), unfolding(crate::specs::Likes::both_resolved))]
fn both_resolved(
    alloc: Global,
    session: &SessionState,
    table: &ObjRef,
    source: &ObjRef,
) -> Result<(ObjName, ObjName), Stop>
    ensures { (look : Look) → Follows (λ names. two names.0 names.1) result (run look (both_resolved session.now table.now source.now)) }
{
    let name = resolved(alloc, &session.current, table)?;
    match resolved(alloc, &session.current, source) {
        Ok(source) => Ok((name, source)),
        Err(stop) => Err(stop),
    }
}

/// Both schemas are there; the id of the first. Otherwise 1049.
#[tactic(auto, using(dd_catalog::specs::WalkLaws::run_bind), unfolding(crate::specs::Likes::both_schemas_there))]
fn both_schemas_there<L: Lookup>(
    alloc: Global,
    table: &ObjName,
    source: &ObjName,
    look: &L,
) -> Result<u32, Stop>
    ensures seen { Follows (λ _. tt) result (run (sights (L.known look.now)) (both_schemas_there (two table.now source.now))) }
    ensures known { IfOk result (λ schema. L.known look.now (keys.Schema table.now.schema) ≡ Some (objects.Schema schema)) }
{
    let schema = schema_id(schema_there(alloc, &table.schema, look)?)?;
    schema_there(alloc, &source.schema, look)?;
    Ok(schema)
}

/// The table that is copied; a view: 1347; nothing: 1146.
fn source_seen<'a>(
    alloc: Global,
    source: &ObjName,
    standing: &'a Object,
) -> Result<&'a TableParts, Stop>
    ensures { (look : Look) → Follows (λ parts. parts.now) result (run look (source_seen source.now (sight standing.now))) }
{
    match standing {
        Object::Table { def, .. } => Ok(def.parts()),
        Object::View { .. } => Err(rules_refusals::wrong_object(alloc, source, "BASE TABLE")?),
        _ => Err(rules_refusals::no_such_table(alloc, source)?),
    }
}

/// The statement where something stands at the table's name.
fn present(alloc: Global, if_not_exists: bool, table: &ObjName) -> Result<Decided, Stop>
    ensures exact { (look : Look) → Decides result (run look (unless if_not_exists (table_exists table.now.name))) }
    ensures same { IfOk result (λ d. d ≡ Decided.Same) }
{
    if !if_not_exists {
        return Err(rules_refusals::table_exists(alloc, &table.name)?);
    }
    Ok(Decided::Same)
}

/// The edit that makes a table like the other.
fn table_like(
    alloc: Global,
    session: &SessionState,
    table: &Placed,
    source: &TableParts,
) -> Result<Edits, AllocError>
    ensures made { IfOk result (λ edits. choice_of edits ≡ table_made session.now table.now.name (like table.now.name source.now)) }
    ensures before { (known : Key → Option Standing) → known (keys.Object table.now.name) ≡ Some objects.Absent → IfOk result (λ edits. AreBefore known (Decided.Edits edits)) }
    ensures ids { (known : Key → Option Standing) → known (keys.Schema table.now.name.schema) ≡ Some (objects.Schema table.now.schema) → IfOk result (λ edits. HaveIds known (Decided.Edits edits)) }
{
    let edit = edit_like(alloc, table, source)?;
    one_edit(alloc, session, edit)
}

fn edit_like(alloc: Global, table: &Placed, source: &TableParts) -> Result<Edit, AllocError>
    ensures made { IfOk result (λ edit. change_of edit ≡ change (keys.Object table.now.name) (FreshTable (like table.now.name source.now))) }
    ensures edit { IfOk result (λ edit. (edit.key ≡ keys.Object table.now.name) × (edit.before ≡ None)) }
    ensures ids { (known : Key → Option Standing) → known (keys.Schema table.now.name.schema) ≡ Some (objects.Schema table.now.schema) → IfOk result (λ edit. HasIds known edit.key edit.after) }
{
    match both(table.name.copy(), like(alloc, &table.name, source)) {
        Ok((name, def)) => Ok(Edit {
            key: ObjectKey::Object(name),
            before: None,
            after: After::NewTable {
                schema: table.schema,
                def,
            },
        }),
        Err(error) => Err(error),
    }
}

/// The columns and the indexes of a table under another name. A table's are well formed; what isn't gets no answer.
fn like(alloc: Global, table: &ObjName, source: &TableParts) -> Result<TableDef, AllocError>
    ensures { IfOk result (λ def. def ≡ like table.now source.now) }
{
    let parts = parts_like(alloc, table, source)?;
    match TableDef::of(parts) {
        Ok(def) => Ok(def),
        Err(_) => Err(AllocError),
    }
}

fn parts_like(alloc: Global, table: &ObjName, source: &TableParts) -> Result<TableParts, AllocError>
    ensures { IfOk result (λ parts. parts ≡ like table.now source.now) }
{
    let lists = both(source.columns.copy(), source.indexes.copy());
    match both(table.copy(), lists) {
        Ok((name, (columns, indexes))) => Ok(TableParts {
            name,
            columns,
            indexes,
            foreign_keys: List::new(alloc),
        }),
        Err(error) => Err(error),
    }
}
