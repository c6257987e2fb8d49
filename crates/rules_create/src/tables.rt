// CREATE TABLE (MySQL 8.0 Reference Manual, 13.1.20).
ghost use Rattle.std.specs.Prelude.{◌≡◌, Option, Some, IfOk, OnOk};
ghost use Rattle.dd_names.specs.declared.object_name.ObjectKey.{ObjectKey as Key};
ghost use Rattle.dd_names.specs.declared.object_name.ObjectKey.TheVariants as keys;
ghost use Rattle.dd_catalog.specs.declared.object.Object.{Object as Standing};
ghost use Rattle.dd_catalog.specs.declared.object.Object.TheVariants as objects;
ghost use Rattle.dd_catalog.specs.Sights.{sight};
ghost use Rattle.dd_catalog.specs.WalkLaws.{Look};
ghost use Rattle.dd_catalog.specs.Walks.{run, look_at};
ghost use Rattle.dd_catalog.specs.Follow.{Follows, sights};
ghost use Rattle.rules_refusals.specs.Refusals.{table_exists};
ghost use Rattle.rules_outcome.specs.Decided.{choice_of, Decides, AreBefore, HaveIds};
ghost use Rattle.rules_named.specs.Named.{unless};
ghost use Rattle.rules_create.specs.Tables.{within_limits, table_of, table_made, create_table};
ghost use Rattle.rules_create.specs.Made.{new_table, columns_made, ordered, filled};
ghost use Rattle.rules_create.specs.Drafts.{IsDraft};

use crate::columns::all_columns;
use crate::drafts::{Draft, draft_of};
use crate::foreign_keys::add_foreign_keys;
use crate::indexes::{are_autos_led, by_class, secondary_count};
use crate::keys::add_keys;
use crate::laws::made_tables_are_formed;
use dd_catalog::{Lookup, Object, Stop, object_at};
use dd_definitions::{TableDef, TableParts};
use dd_names::{List, ObjName, ObjectKey, TryCopy};
use rules_named::{Placed, one_placed};
use rules_outcome::{After, Decided, Edit, Edits};
use sql_ast::{Element, SessionState};
use sql_types::ObjRef;
use std::alloc::{AllocError, Global};

/// What CREATE TABLE comes to. Present: done without change with IF NOT EXISTS, else 1050. Then what the elements make.
#[tactic(auto, using(dd_catalog::specs::WalkLaws::run_bind), unfolding(crate::specs::Tables::create_table))]
pub fn create_table<L: Lookup>(
    alloc: Global,
    session: &SessionState,
    if_not_exists: bool,
    table: &ObjRef,
    elements: &[Element],
    look: &L,
) -> Result<Decided, Stop>
    ensures exact { Decides result (run (sights (L.known look.now)) (create_table session.now if_not_exists table.now elements.now)) }
    ensures before { IfOk result (λ d. AreBefore (L.known look.now) d) }
    ensures ids { IfOk result (λ d. HaveIds (L.known look.now) d) }
{
    let table = one_placed(alloc, &session.current, table, look)?;
    match object_at(look, &table.name)? {
        Object::Absent => new_table(alloc, session, table, elements, look),
        _ => present(alloc, if_not_exists, &table.name),
    }
}

/// The statement where something stands at the table's name.
fn present(alloc: Global, if_not_exists: bool, table: &ObjName) -> Result<Decided, Stop>
    ensures exact { (look : Look) → Decides result (run look (unless if_not_exists (table_exists table.now.name))) }
    ensures same { IfOk result (λ d. d ≡ Decided.Same) }
{
    if !if_not_exists {
        return Err(rules_refusals::table_exists(alloc, &table.name)?);
    }
    Ok(Decided::Same)
}

/// The statement where nothing stands at the table's name.
#[tactic(auto, using(dd_catalog::specs::WalkLaws::run_bind))]
fn new_table<L: Lookup>(
    alloc: Global,
    session: &SessionState,
    table: Placed,
    elements: &[Element],
    look: &L,
) -> Result<Decided, Stop>
    ensures exact { Decides result (run (sights (L.known look.now)) (new_table session.now table.name elements.now)) }
    ensures before { L.known look.now (keys.Object table.name) ≡ Some objects.Absent → IfOk result (λ d. AreBefore (L.known look.now) d) }
    ensures ids { L.known look.now (keys.Schema table.name.schema) ≡ Some (objects.Schema table.schema) → IfOk result (λ d. HaveIds (L.known look.now) d) }
{
    let def = table_defined(alloc, &table.name, elements, look)?;
    Ok(Decided::Edits(table_made(alloc, session, table, def)?))
}

/// The edit that makes the table.
fn table_made(
    alloc: Global,
    session: &SessionState,
    table: Placed,
    def: TableDef,
) -> Result<Edits, AllocError>
    ensures made { IfOk result (λ edits. choice_of edits ≡ table_made session.now table.name def) }
    ensures before { (known : Key → Option Standing) → known (keys.Object table.name) ≡ Some objects.Absent → IfOk result (λ edits. AreBefore known (Decided.Edits edits)) }
    ensures ids { (known : Key → Option Standing) → known (keys.Schema table.name.schema) ≡ Some (objects.Schema table.schema) → IfOk result (λ edits. HaveIds known (Decided.Edits edits)) }
{
    let mut puts = List::new(alloc);
    puts.push(Edit {
        key: ObjectKey::Object(table.name),
        before: None,
        after: After::NewTable {
            schema: table.schema,
            def,
        },
    })?;
    Ok(Edits {
        puts,
        session: session.copy()?,
    })
}

/// The table that the elements make, which is well formed.
fn table_defined<L: Lookup>(
    alloc: Global,
    table: &ObjName,
    elements: &[Element],
    look: &L,
) -> Result<TableDef, Stop>
    ensures { Follows (λ def. def) result (run (sights (L.known look.now)) (table_of table.now elements.now)) }
{
    let parts = table_of(alloc, table, elements, look)?;
    made_tables_are_formed();
    match TableDef::of(parts) {
        Ok(def) => Ok(def),
        Err(_) => unreachable!(),
    }
}

/// What the elements make: columns, keys, and then foreign keys.
fn table_of<L: Lookup>(
    alloc: Global,
    table: &ObjName,
    elements: &[Element],
    look: &L,
) -> Result<TableParts, Stop>
    ensures { Follows (λ parts. parts) result (run (sights (L.known look.now)) (table_of table.now elements.now)) }
{
    let mut draft = columns_made(alloc, table, elements)?;
    fill(alloc, &mut draft, elements, look)?;
    let Draft { parts, names: _ } = draft;
    Ok(parts)
}

/// The table with its columns alone.
#[tactic(auto, using(dd_catalog::specs::WalkLaws::run_bind))]
fn columns_made(alloc: Global, table: &ObjName, elements: &[Element]) -> Result<Draft, Stop>
    ensures parts { (look : Look) → Follows (λ draft. draft.parts) result (run look (columns_made table.now elements.now)) }
    ensures draft { IfOk result (λ draft. IsDraft draft) }
{
    let columns = all_columns(alloc, elements)?;
    Ok(draft_of(alloc, table.copy()?, columns))
}

/// The table with its keys and its foreign keys, within the limits, and the indexes by their classes.
#[tactic(auto, using(dd_catalog::specs::WalkLaws::run_bind), unfolding(crate::specs::Made::filled))]
fn fill<L: Lookup>(
    alloc: Global,
    draft: &mut Draft,
    elements: &[Element],
    look: &L,
) -> Result<(), Stop>
    requires { IsDraft draft.old }
    ensures { Follows (λ _. draft.new.parts) result (run (sights (L.known look.now)) (filled elements.now draft.old.parts)) }
{
    add_keys(alloc, draft, elements)?;
    add_foreign_keys(alloc, draft, elements, look)?;
    within_limits(alloc, &draft.parts)?;
    order_indexes(alloc, &mut draft.parts)?;
    Ok(())
}

/// The indexes by their classes.
fn order_indexes(alloc: Global, parts: &mut TableParts) -> Result<(), AllocError>
    ensures { OnOk result (parts.new ≡ ordered parts.old) }
{
    let indexes = by_class(alloc, parts.columns.as_slice(), parts.indexes.as_slice())?;
    parts.indexes = indexes;
    Ok(())
}

/// More than 64 secondary indexes: 1069. An AUTO_INCREMENT column that isn't the only one or leads no index: 1075. More than
/// 1,024 foreign keys: 9001.
#[tactic(auto, using(dd_catalog::specs::WalkLaws::run_bind), unfolding(crate::specs::Tables::within_limits))]
fn within_limits(alloc: Global, parts: &TableParts) -> Result<(), Stop>
    ensures { (look : Look) → Follows (λ _. tt) result (run look (within_limits parts.now)) }
{
    if secondary_count(parts.indexes.as_slice()) > 64 {
        return Err(rules_refusals::too_many_keys(alloc));
    }
    if !are_autos_led(parts) {
        return Err(rules_refusals::wrong_auto_key(alloc));
    }
    if parts.foreign_keys.len() > 1024 {
        return Err(rules_refusals::beyond_limit(alloc, "1024")?);
    }
    Ok(())
}
