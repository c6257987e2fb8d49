// ALTER TABLE, CREATE INDEX and DROP INDEX (MySQL 8.0 Reference Manual, 13.1.9, 13.1.15 and 13.1.27).
ghost use Rattle.std.specs.Prelude.{◌≡◌, ◌∷◌, [], IfOk};
ghost use Rattle.dd_catalog.specs.Sights.{sight};
ghost use Rattle.dd_catalog.specs.Walks.{run};
ghost use Rattle.dd_catalog.specs.WalkLaws.{Look};
ghost use Rattle.dd_catalog.specs.Follow.{Follows, sights};
ghost use Rattle.rules_outcome.specs.Decided.{AreBefore, Decides, HaveIds};
ghost use Rattle.rules_alter.specs.Statements.{alter_table, altered, create_index, drop_index, index_class, index_words, last_of, table_seen};
ghost use Rattle.rules_alter_statements.specs.Standing.{found};

use crate::changes::edits_of;
use crate::children::children_of;
use crate::names::names_of;
use dd_catalog::{Lookup, Object, Stop, object_at};
use dd_definitions::TableParts;
use dd_names::{List, Name, ObjName, TryCopy, both};
use rules_alter::Child;
use rules_outcome::{Decided, Edits};
use sql_ast::{AlterAction, SessionState};
use sql_types::{IndexClass, KeyWords, ObjRef};
use std::alloc::{AllocError, Global};

/// What ALTER TABLE comes to. Absent: 1146; a view: 1347. More than 4,096 children: 9001. Then the actions from left to right,
/// each on what those before it have left; then what holds of the whole table; and the last new name of the table as one pair
/// of RENAME TABLE.
#[tactic(auto, using(dd_catalog::specs::WalkLaws::run_bind), unfolding(rules_alter::specs::Statements::alter_table))]
pub fn alter_table<L: Lookup>(
    alloc: Global,
    session: &SessionState,
    table: &ObjRef,
    actions: &[AlterAction],
    look: &L,
) -> Result<Decided, Stop>
    ensures exact { Decides result (run (sights (L.known look.now)) (alter_table session.now table.now actions.now)) }
    ensures before { IfOk result (λ d. AreBefore (L.known look.now) d) }
    ensures ids { IfOk result (λ d. HaveIds (L.known look.now) d) }
{
    let names = names_of(alloc, session, table, actions, look)?;
    let table = table_seen(alloc, &names.table, object_at(look, &names.table)?)?;
    let children = children_of(alloc, &names.table, look)?;
    let target = last_of(names.targets);
    altered(alloc, session, actions, &target, table, children, look)
}

/// The table as it stood.
#[derive(Drop)]
pub(crate) struct Found {
    /// The id of its tablespace.
    pub space: u32,
    pub parts: TableParts,
}

/// The table that is altered; nothing: 1146; a view: 1347.
fn table_seen(alloc: Global, table: &ObjName, standing: &Object) -> Result<Found, Stop>
    ensures { (look : Look) → Follows found result (run look (table_seen table.now (sight standing.now))) }
{
    match standing {
        Object::Table { space, def, .. } => match def.parts().copy() {
            Ok(parts) => Ok(Found {
                space: *space,
                parts,
            }),
            Err(error) => Err(Stop::from(error)),
        },
        Object::View { .. } => Err(rules_refusals::wrong_object(alloc, table, "BASE TABLE")?),
        _ => Err(rules_refusals::no_such_table(alloc, table)?),
    }
}

/// The last of the new names.
fn last_of(names: List<ObjName>) -> Option<ObjName>
    ensures { result ≡ last_of names }
{
    names.into_vec().pop()
}

/// What the actions make of the table and of its children.
#[tactic(auto, using(dd_catalog::specs::WalkLaws::run_bind), unfolding(rules_alter::specs::Statements::altered))]
fn altered<L: Lookup>(
    alloc: Global,
    session: &SessionState,
    actions: &[AlterAction],
    target: &Option<ObjName>,
    table: Found,
    children: List<Child>,
    look: &L,
) -> Result<Decided, Stop>
    ensures exact { Decides result (run (sights (L.known look.now)) (altered session.now actions.now target.now (found table) children)) }
    ensures before { IfOk result (λ d. AreBefore (L.known look.now) d) }
    ensures ids { IfOk result (λ d. HaveIds (L.known look.now) d) }
{
    let Found { space, parts } = table;
    let state = rules_alter::altered(alloc, parts, children, actions, look)?;
    let puts = edits_of(alloc, space, state, target, look)?;
    match session.copy() {
        Ok(session) => Ok(Decided::Edits(Edits { puts, session })),
        Err(error) => Err(Stop::from(error)),
    }
}

/// What CREATE INDEX comes to: it is ADD KEY.
pub fn create_index<L: Lookup>(
    alloc: Global,
    session: &SessionState,
    is_unique: bool,
    name: &Name,
    table: &ObjRef,
    columns: &List<Name>,
    look: &L,
) -> Result<Decided, Stop>
    ensures exact { Decides result (run (sights (L.known look.now)) (create_index session.now is_unique name.now table.now columns.now)) }
    ensures before { IfOk result (λ d. AreBefore (L.known look.now) d) }
    ensures ids { IfOk result (λ d. HaveIds (L.known look.now) d) }
{
    let action = AlterAction::AddKey(index_words(is_unique, name, columns)?);
    alter_table(alloc, session, table, &[action], look)
}

fn index_words(is_unique: bool, name: &Name, columns: &List<Name>) -> Result<KeyWords, AllocError>
    ensures { IfOk result (λ words. words ≡ index_words is_unique name.now columns.now) }
{
    match both(name.copy(), columns.copy()) {
        Ok((name, columns)) => Ok(KeyWords {
            class: index_class(is_unique),
            constraint: None,
            name: Some(name),
            columns,
        }),
        Err(error) => Err(error),
    }
}

fn index_class(is_unique: bool) -> IndexClass
    ensures { result ≡ index_class is_unique }
{
    if is_unique {
        IndexClass::Unique
    } else {
        IndexClass::Plain
    }
}

/// What DROP INDEX comes to: it is the action of that name.
pub fn drop_index<L: Lookup>(
    alloc: Global,
    session: &SessionState,
    name: &Name,
    table: &ObjRef,
    look: &L,
) -> Result<Decided, Stop>
    ensures exact { Decides result (run (sights (L.known look.now)) (drop_index session.now name.now table.now)) }
    ensures before { IfOk result (λ d. AreBefore (L.known look.now) d) }
    ensures ids { IfOk result (λ d. HaveIds (L.known look.now) d) }
{
    let action = AlterAction::DropIndex { name: name.copy()? };
    alter_table(alloc, session, table, &[action], look)
}
