// SHOW COLUMNS (MySQL 8.0 Reference Manual, 13.7.7.5).
ghost use Rattle.std.specs.Prelude.{◌≡◌, IfOk};
ghost use Rattle.dd_catalog.specs.Sights.{sight};
ghost use Rattle.dd_catalog.specs.Walks.{run};
ghost use Rattle.dd_catalog.specs.Follow.{sights};
ghost use Rattle.rules_outcome.specs.Decided.{Decides, AreBefore, HaveIds};
ghost use Rattle.rules_views.specs.Shows.{show_columns, columns_shown, view_columns};

use crate::columns::source_seen;
use crate::shown::Search;
use dd_catalog::{Lookup, Object, Stop, object_at};
use dd_names::ObjName;
use info_schema::columns_rows;
use rules_named::one_named;
use rules_outcome::Decided;
use rules_refusals::no_such_table;
use sql_ast::SessionState;
use sql_types::ObjRef;
use std::alloc::Global;

/// What SHOW COLUMNS comes to: a row a column of the table or view; 1046 without a schema, 1049 where it isn't there, 1146 where
/// the object isn't there, 1356 and 9003 where a view's columns aren't.
#[tactic(auto, using(dd_catalog::specs::WalkLaws::run_bind), unfolding(crate::specs::Shows::show_columns))]
pub fn show_columns<L: Lookup>(
    alloc: Global,
    session: &SessionState,
    named: &ObjRef,
    look: &L,
) -> Result<Decided, Stop>
    ensures exact { Decides result (run (sights (L.known look.now)) (show_columns session.now named.now)) }
    ensures before { IfOk result (λ d. AreBefore (L.known look.now) d) }
    ensures ids { IfOk result (λ d. HaveIds (L.known look.now) d) }
{
    let object = one_named(alloc, &session.current, named, look)?;
    let seen = object_at(look, &object)?;
    columns_shown(alloc, &object, seen, look)
}

fn columns_shown<L: Lookup>(
    alloc: Global,
    name: &ObjName,
    object: &Object,
    look: &L,
) -> Result<Decided, Stop>
    ensures exact { Decides result (run (sights (L.known look.now)) (columns_shown name.now (sight object.now))) }
    ensures before { IfOk result (λ d. AreBefore (L.known look.now) d) }
    ensures ids { IfOk result (λ d. HaveIds (L.known look.now) d) }
{
    match object {
        Object::Table { def, .. } => {
            let parts = def.parts();
            let rows = columns_rows(alloc, parts.columns.as_slice(), parts.indexes.as_slice())?;
            Ok(Decided::Rows(rows))
        }
        Object::View { .. } => view_columns(alloc, name, object, look),
        _ => Err(no_such_table(alloc, name)?),
    }
}

#[tactic(auto, using(dd_catalog::specs::WalkLaws::run_bind), unfolding(crate::specs::Shows::view_columns))]
fn view_columns<L: Lookup>(
    alloc: Global,
    name: &ObjName,
    object: &Object,
    look: &L,
) -> Result<Decided, Stop>
    ensures exact { Decides result (run (sights (L.known look.now)) (view_columns name.now (sight object.now))) }
    ensures before { IfOk result (λ d. AreBefore (L.known look.now) d) }
    ensures ids { IfOk result (λ d. HaveIds (L.known look.now) d) }
{
    let mut search = Search::new(alloc);
    let shown = source_seen(alloc, 32, name, &mut search, name, object, look)?;
    Ok(Decided::Rows(columns_rows(alloc, shown.columns.as_slice(), &[])?))
}
