// SHOW CREATE DATABASE, SHOW CREATE TABLE and SHOW CREATE VIEW (MySQL 8.0 Reference Manual, 13.7.7).
ghost use Rattle.std.specs.Prelude.{◌≡◌, Option, IfOk};
ghost use Rattle.dd_names.specs.declared.object_name.ObjectKey.{ObjectKey as Key};
ghost use Rattle.dd_catalog.specs.declared.object.Object.{Object as Standing};
ghost use Rattle.dd_catalog.specs.Sights.{sight};
ghost use Rattle.dd_catalog.specs.Walks.{run};
ghost use Rattle.dd_catalog.specs.WalkLaws.{Look};
ghost use Rattle.dd_catalog.specs.Follow.{sights};
ghost use Rattle.rules_outcome.specs.Decided.{Decides, AreBefore, HaveIds};
ghost use Rattle.rules_show.specs.Shows.{show_create_database, object_shown, view_shown, show_create_table, show_create_view};

use crate::listings::{database_listed, table_listed, view_listed};
use dd_catalog::{Lookup, Object, Stop, object_at};
use dd_names::{Name, ObjName};
use rules_named::{one_named, schema_there};
use rules_outcome::Decided;
use rules_refusals::{no_such_table, wrong_object};
use sql_ast::SessionState;
use sql_types::ObjRef;
use std::alloc::{AllocError, Global};

/// What SHOW CREATE DATABASE comes to: the schema's name and its text; 1049 where it isn't there.
#[tactic(auto, using(dd_catalog::specs::WalkLaws::run_bind), unfolding(crate::specs::Shows::show_create_database))]
pub fn show_create_database<L: Lookup>(
    alloc: Global,
    name: &Name,
    look: &L,
) -> Result<Decided, Stop>
    ensures exact { Decides result (run (sights (L.known look.now)) (show_create_database name.now)) }
    ensures before { IfOk result (λ d. AreBefore (L.known look.now) d) }
    ensures ids { IfOk result (λ d. HaveIds (L.known look.now) d) }
{
    schema_there(alloc, name, look)?;
    Ok(Decided::Rows(database_listed(alloc, name)?))
}

/// What SHOW CREATE TABLE comes to: the table's name and its text, or what SHOW CREATE VIEW shows of a view; 1046 without a
/// schema, 1049 where it isn't there, and 1146 where the object isn't there.
#[tactic(auto, using(dd_catalog::specs::WalkLaws::run_bind), unfolding(crate::specs::Shows::show_create_table))]
pub fn show_create_table<L: Lookup>(
    alloc: Global,
    session: &SessionState,
    table: &ObjRef,
    look: &L,
) -> Result<Decided, Stop>
    ensures exact { Decides result (run (sights (L.known look.now)) (show_create_table session.now table.now)) }
    ensures before { IfOk result (λ d. AreBefore (L.known look.now) d) }
    ensures ids { IfOk result (λ d. HaveIds (L.known look.now) d) }
{
    let object = one_named(alloc, &session.current, table, look)?;
    let standing = object_at(look, &object)?;
    object_shown(alloc, &object, standing)
}

/// A table or a view as it stands; 1146 where neither does.
fn object_shown(alloc: Global, object: &ObjName, standing: &Object) -> Result<Decided, Stop>
    ensures exact { (look : Look) → Decides result (run look (object_shown object.now (sight standing.now))) }
    ensures before { (known : Key → Option Standing) → IfOk result (λ d. AreBefore known d) }
    ensures ids { (known : Key → Option Standing) → IfOk result (λ d. HaveIds known d) }
{
    match standing {
        Object::Table { def, .. } => Ok(Decided::Rows(table_listed(alloc, def)?)),
        Object::View { def, .. } => Ok(Decided::Rows(view_listed(alloc, def)?)),
        _ => Err(no_such_table(alloc, object)?),
    }
}

/// What SHOW CREATE VIEW comes to: the view's name and its text; 1046 without a schema, 1049 where it isn't there, 1347 for a
/// table, and 1146 where the object isn't there.
#[tactic(auto, using(dd_catalog::specs::WalkLaws::run_bind), unfolding(crate::specs::Shows::show_create_view))]
pub fn show_create_view<L: Lookup>(
    alloc: Global,
    session: &SessionState,
    view: &ObjRef,
    look: &L,
) -> Result<Decided, Stop>
    ensures exact { Decides result (run (sights (L.known look.now)) (show_create_view session.now view.now)) }
    ensures before { IfOk result (λ d. AreBefore (L.known look.now) d) }
    ensures ids { IfOk result (λ d. HaveIds (L.known look.now) d) }
{
    let object = one_named(alloc, &session.current, view, look)?;
    let standing = object_at(look, &object)?;
    view_shown(alloc, &object, standing)
}

/// A view as it stands, and 1347 for a table; 1146 where neither does.
fn view_shown(alloc: Global, object: &ObjName, standing: &Object) -> Result<Decided, Stop>
    ensures exact { (look : Look) → Decides result (run look (view_shown object.now (sight standing.now))) }
    ensures before { (known : Key → Option Standing) → IfOk result (λ d. AreBefore known d) }
    ensures ids { (known : Key → Option Standing) → IfOk result (λ d. HaveIds known d) }
{
    match standing {
        Object::Table { .. } => Err(wrong_object(alloc, object, "VIEW")?),
        _ => object_shown(alloc, object, standing),
    }
}
