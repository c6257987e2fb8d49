// The names of ALTER TABLE: that of the table, and those that it is given.
ghost use Rattle.std.specs.Prelude.{◌≡◌, [], ◌∷◌, ◌++◌, IfOk, OnOk};
ghost use Rattle.std.specs.List.{flat_map};
ghost use Rattle.dd_catalog.specs.Walks.{run, each, every};
ghost use Rattle.dd_catalog.specs.WalkLaws.{Look};
ghost use Rattle.dd_catalog.specs.Follow.{Follows, sights};
ghost use Rattle.rules_named.specs.Named.{resolved, own_schema_there};
ghost use Rattle.rules_alter.specs.Statements.{all_resolved, names_of, target_in};
ghost use Rattle.rules_alter_statements.specs.Named.{named};

use dd_catalog::{Lookup, Stop};
use dd_names::{List, Name, ObjName, TryCopy};
use rules_named::{resolved, schema_there};
use sql_ast::{AlterAction, SessionState};
use sql_types::ObjRef;
use std::alloc::{AllocError, Global};

/// The table, and the new names that the actions give it, in order.
#[derive(Drop)]
pub(crate) struct Names {
    pub table: ObjName,
    pub targets: List<ObjName>,
}

/// The names, whose schemas are there: first 1046 of each, and then 1049.
#[tactic(auto, using(dd_catalog::specs::WalkLaws::run_bind), unfolding(rules_alter::specs::Statements::names_of))]
pub(crate) fn names_of<L: Lookup>(
    alloc: Global,
    session: &SessionState,
    table: &ObjRef,
    actions: &[AlterAction],
    look: &L,
) -> Result<Names, Stop>
    ensures { Follows named result (run (sights (L.known look.now)) (names_of session.now table.now actions.now)) }
{
    let names = all_resolved(alloc, session, table, actions)?;
    schema_there(alloc, &names.table.schema, look)?;
    match all_schemas_there(alloc, names.targets.as_slice(), look) {
        Ok(()) => Ok(names),
        Err(stop) => Err(stop),
    }
}

/// The names with their schemas; 1046.
#[tactic(auto, using(dd_catalog::specs::WalkLaws::run_bind), unfolding(rules_alter::specs::Statements::all_resolved))]
fn all_resolved(
    alloc: Global,
    session: &SessionState,
    table: &ObjRef,
    actions: &[AlterAction],
) -> Result<Names, Stop>
    ensures { (look : Look) → Follows named result (run look (all_resolved session.now table.now actions.now)) }
{
    let table = resolved(alloc, &session.current, table)?;
    let written = targets_in(alloc, actions)?;
    match each_resolved(alloc, &session.current, written.as_slice()) {
        Ok(targets) => Ok(Names { table, targets }),
        Err(stop) => Err(stop),
    }
}

/// The new names of the table, as the actions write them.
fn targets_in(alloc: Global, actions: &[AlterAction]) -> Result<List<ObjRef>, AllocError>
    ensures { IfOk result (λ targets. targets ≡ flat_map target_in actions.now) }
{
    let mut targets = List::new(alloc);
    'actions: for action in actions {
        add_target(&mut targets, action)?;
    }
    Ok(targets)
}

fn add_target(targets: &mut List<ObjRef>, action: &AlterAction) -> Result<(), AllocError>
    ensures { OnOk result (targets.new ≡ targets.old ++ target_in action.now) }
{
    match action {
        AlterAction::RenameTable { to } => {
            targets.push(to.copy()?)?;
            Ok(())
        }
        _ => Ok(()),
    }
}

fn each_resolved(
    alloc: Global,
    current: &Option<Name>,
    written: &[ObjRef],
) -> Result<List<ObjName>, Stop>
    ensures { (look : Look) → Follows (λ names. names) result (run look (each (resolved current.now) written.now)) }
{
    let mut names = List::new(alloc);
    'written: for name in written {
        names.push(resolved(alloc, current, name)?)?;
    }
    Ok(names)
}

fn all_schemas_there<L: Lookup>(alloc: Global, names: &[ObjName], look: &L) -> Result<(), Stop>
    ensures { Follows (λ _. tt) result (run (sights (L.known look.now)) (every own_schema_there names.now)) }
{
    'names: for name in names {
        own_schema_there(alloc, name, look)?;
    }
    Ok(())
}

fn own_schema_there<L: Lookup>(alloc: Global, name: &ObjName, look: &L) -> Result<(), Stop>
    ensures { Follows (λ _. tt) result (run (sights (L.known look.now)) (own_schema_there name.now)) }
{
    schema_there(alloc, &name.schema, look)?;
    Ok(())
}
