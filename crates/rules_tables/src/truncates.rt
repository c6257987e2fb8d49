// TRUNCATE TABLE (MySQL 8.0 Reference Manual, 13.1.37).
ghost use Rattle.std.specs.Prelude.{◌≡◌, Option, Some, IfOk};
ghost use Rattle.dd_names.specs.declared.object_name.ObjectKey.TheVariants as keys;
ghost use Rattle.dd_catalog.specs.Sights.{sight};
ghost use Rattle.dd_catalog.specs.Walks.{run};
ghost use Rattle.dd_catalog.specs.Follow.{Follows, sights};
ghost use Rattle.rules_outcome.specs.Decided.{there, Decides, AreBefore, HaveIds};
ghost use Rattle.rules_tables.specs.Truncates.{child_refused, no_child, truncate, truncate_seen};

use crate::edits::one_edit;
use dd_catalog::{Lookup, Object, Stop, children_at, object_at};
use dd_definitions::TableDef;
use dd_names::{ObjName, ObjectKey, TryCopy, both};
use rules_named::{one_named, stood};
use rules_outcome::{After, Decided, Edit};
use rules_schema::{children_seen, constraint_on};
use sql_ast::SessionState;
use sql_types::ObjRef;
use std::alloc::{AllocError, Global};

/// What TRUNCATE TABLE comes to. Absent or a view: 1146. A child: 1701 with the least. Then the table has a new tablespace.
#[tactic(auto, using(dd_catalog::specs::WalkLaws::run_bind), unfolding(crate::specs::Truncates::truncate))]
pub fn truncate<L: Lookup>(
    alloc: Global,
    session: &SessionState,
    table: &ObjRef,
    look: &L,
) -> Result<Decided, Stop>
    ensures exact { Decides result (run (sights (L.known look.now)) (truncate session.now table.now)) }
    ensures before { IfOk result (λ d. AreBefore (L.known look.now) d) }
    ensures ids { IfOk result (λ d. HaveIds (L.known look.now) d) }
{
    let table = one_named(alloc, &session.current, table, look)?;
    let standing = object_at(look, &table)?;
    truncate_seen(alloc, session, &table, standing, look)
}

/// The statement over what stands at the table's name.
#[tactic(auto, using(dd_catalog::specs::WalkLaws::run_bind))]
fn truncate_seen<L: Lookup>(
    alloc: Global,
    session: &SessionState,
    table: &ObjName,
    standing: &Object,
    look: &L,
) -> Result<Decided, Stop>
    ensures exact { Decides result (run (sights (L.known look.now)) (truncate_seen session.now table.now (sight standing.now))) }
    ensures before { L.known look.now (keys.Object table.now) ≡ Some standing.now → IfOk result (λ d. AreBefore (L.known look.now) d) }
    ensures ids { L.known look.now (keys.Object table.now) ≡ Some standing.now → IfOk result (λ d. HaveIds (L.known look.now) d) }
{
    match standing {
        Object::Table {
            id,
            schema,
            def,
            ..
        } => {
            no_child(alloc, table, look)?;
            let edit = edit_emptied(table, standing, *id, *schema, def)?;
            Ok(Decided::Edits(one_edit(alloc, session, edit)?))
        }
        _ => Err(rules_refusals::no_such_table(alloc, table)?),
    }
}

/// No other table has a foreign key to the table: 1701 with the least.
#[tactic(auto, using(dd_catalog::specs::WalkLaws::run_bind), unfolding(crate::specs::Truncates::no_child))]
fn no_child<L: Lookup>(alloc: Global, table: &ObjName, look: &L) -> Result<(), Stop>
    ensures { Follows (λ _. tt) result (run (sights (L.known look.now)) (no_child table.now)) }
{
    let children = children_at(look, table)?;
    child_refused(alloc, table, children_seen(children), look)
}

#[tactic(auto, using(dd_catalog::specs::WalkLaws::run_bind), unfolding(crate::specs::Truncates::child_refused))]
fn child_refused<L: Lookup>(
    alloc: Global,
    table: &ObjName,
    children: &[ObjName],
    look: &L,
) -> Result<(), Stop>
    ensures { Follows (λ _. tt) result (run (sights (L.known look.now)) (child_refused table.now children.now)) }
{
    match children {
        [] => Ok(()),
        [child, ..] => {
            let standing = object_at(look, child)?;
            let constraint = constraint_on(table, standing);
            Err(rules_refusals::truncate_illegal_fk(alloc, child, constraint)?)
        }
    }
}

/// The table has a new tablespace.
fn edit_emptied(
    table: &ObjName,
    standing: &Object,
    id: u32,
    schema: u32,
    def: &TableDef,
) -> Result<Edit, AllocError>
    ensures { IfOk result (λ edit. edit ≡ record { key = keys.Object table.now; before = there standing.now; after = After.RebuiltTable id schema def.now }) }
{
    match both(table.copy(), both(stood(standing), def.copy())) {
        Ok((name, (before, def))) => Ok(Edit {
            key: ObjectKey::Object(name),
            before,
            after: After::RebuiltTable { id, schema, def },
        }),
        Err(error) => Err(error),
    }
}
