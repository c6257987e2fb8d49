// CREATE DATABASE and DROP DATABASE (MySQL 8.0 Reference Manual, 13.1.12 and 13.1.24).
ghost use Rattle.std.specs.Prelude.{◌≡◌, [], ◌∷◌, ◌++◌, Option, Some, IfOk, false, map, if◌then◌else◌};
ghost use Rattle.dd_names.specs.declared.object_name.ObjectKey.{ObjectKey as Key};
ghost use Rattle.dd_catalog.specs.declared.object.Object.{Object as Standing};
ghost use Rattle.dd_catalog.specs.declared.object.Object.TheVariants as objects;
ghost use Rattle.dd_catalog.specs.Sights.{sight};
ghost use Rattle.dd_catalog.specs.Walks.{run, done, every};
ghost use Rattle.dd_catalog.specs.Follow.{Follows, sights};
ghost use Rattle.rules_outcome.specs.Choices.{Gone, change, Changes};
ghost use Rattle.rules_outcome.specs.Decided.{Decides, change_of, choice_of, IsBefore, AreBefore, HasIds, HaveIds};
ghost use Rattle.rules_named.specs.Answers.{AllBefore, AllIds};
ghost use Rattle.rules_named.specs.Named.{object_in, is_nothing};
ghost use Rattle.rules_schema.specs.Drops.{is_table, no_child_stays, gone};
ghost use Rattle.rules_schema.specs.Schemas.{is_schema_present, create_database, is_in, may_go, is_current, without_schema, schema_gone, drop_database};

use crate::children::{Going, edit_gone, is_table, no_child_stays};
use crate::listings::names_seen;
use dd_catalog::{Lookup, Object, Stop, object_at, objects_at, schema_at};
use dd_names::{List, Name, ObjName, ObjectKey, TryCopy, is_system_schema};
use rules_named::add_edit;
use rules_outcome::{After, Decided, Edit, Edits};
use sql_ast::SessionState;
use std::alloc::{AllocError, Global};

/// What CREATE DATABASE comes to: 1007 where the schema is there, unless IF NOT EXISTS is written.
#[tactic(auto, using(dd_catalog::specs::WalkLaws::run_bind), unfolding(crate::specs::Schemas::create_database))]
pub fn create_database<L: Lookup>(
    alloc: Global,
    session: &SessionState,
    if_not_exists: bool,
    name: &Name,
    look: &L,
) -> Result<Decided, Stop>
    ensures exact { Decides result (run (sights (L.known look.now)) (create_database session.now if_not_exists name.now)) }
    ensures before { IfOk result (λ d. AreBefore (L.known look.now) d) }
    ensures ids { IfOk result (λ d. HaveIds (L.known look.now) d) }
{
    if is_schema_present(name, look)? {
        if if_not_exists {
            return Ok(Decided::Same);
        }
        return Err(rules_refusals::db_create_exists(alloc, name)?);
    }
    let mut puts = List::new(alloc);
    let edit = Edit {
        key: ObjectKey::Schema(name.copy()?),
        before: None,
        after: After::NewSchema,
    };
    add_edit(&mut puts, edit)?;
    Ok(Decided::Edits(Edits {
        puts,
        session: session.copy()?,
    }))
}

/// Whether the schema is there; where it isn't, nothing stands at its key.
#[tactic(auto, using(dd_catalog::specs::WalkLaws::run_bind), unfolding(crate::specs::Schemas::is_schema_present))]
fn is_schema_present<L: Lookup>(name: &Name, look: &L) -> Result<bool, Stop>
    ensures seen { Follows (λ present. present) result (run (sights (L.known look.now)) (is_schema_present name.now)) }
    ensures known { IfOk result (λ present. present ≡ false → L.known look.now (ObjectKey.Schema name.now) ≡ Some objects.Absent) }
{
    if is_system_schema(name.as_str()) {
        return Ok(true);
    }
    let object = schema_at(look, name)?;
    Ok(!is_nothing(object))
}

fn is_nothing(object: &Object) -> bool
    ensures { result ≡ is_nothing (sight object.now) }
{
    matches!(object, Object::Absent)
}

/// What DROP DATABASE comes to: 1008 where the schema isn't there, unless IF EXISTS is written, or 3730.
#[tactic(auto, using(dd_catalog::specs::WalkLaws::run_bind), unfolding(crate::specs::Schemas::drop_database))]
pub fn drop_database<L: Lookup>(
    alloc: Global,
    session: &SessionState,
    if_exists: bool,
    name: &Name,
    look: &L,
) -> Result<Decided, Stop>
    ensures exact { Decides result (run (sights (L.known look.now)) (drop_database session.now if_exists name.now)) }
    ensures before { IfOk result (λ d. AreBefore (L.known look.now) d) }
    ensures ids { IfOk result (λ d. HaveIds (L.known look.now) d) }
{
    let object = schema_at(look, name)?;
    if is_nothing(object) {
        if if_exists {
            return Ok(Decided::Same);
        }
        return Err(rules_refusals::db_drop_exists(alloc, name)?);
    }
    schema_gone(alloc, session, name, object, look)
}

/// The schema goes, which stands there, and before it its objects.
#[tactic(auto, using(dd_catalog::specs::WalkLaws::run_bind), unfolding(crate::specs::Schemas::schema_gone))]
fn schema_gone<L: Lookup>(
    alloc: Global,
    session: &SessionState,
    name: &Name,
    standing: &Object,
    look: &L,
) -> Result<Decided, Stop>
    ensures exact { Decides result (run (sights (L.known look.now)) (schema_gone session.now name.now)) }
    ensures before { L.known look.now (ObjectKey.Schema name.now) ≡ Some standing.now → IfOk result (λ d. AreBefore (L.known look.now) d) }
    ensures ids { IfOk result (λ d. HaveIds (L.known look.now) d) }
{
    let object = objects_at(look, name)?;
    let names = names_seen(object);
    if names.len() > 65_536 {
        return Err(rules_refusals::beyond_limit(alloc, "65536")?);
    }
    let puts = objects_gone(alloc, name, names, look)?;
    Ok(Decided::Edits(with_schema(session, name, puts, standing)?))
}

/// The schema itself goes last.
fn with_schema(
    session: &SessionState,
    name: &Name,
    puts: List<Edit>,
    standing: &Object,
) -> Result<Edits, AllocError>
    ensures exact { IfOk result (λ edits. choice_of edits ≡ Changes (map change_of puts ++ change (ObjectKey.Schema name.now) Gone ∷ []) (without_schema session.now name.now)) }
    ensures before { (known : Key → Option Standing) → AllBefore known puts → known (ObjectKey.Schema name.now) ≡ Some standing.now → IfOk result (λ edits. AllBefore known edits.puts) }
    ensures ids { (known : Key → Option Standing) → AllIds known puts → IfOk result (λ edits. AllIds known edits.puts) }
{
    let mut puts = puts;
    let last = edit_gone(ObjectKey::Schema(name.copy()?), standing)?;
    add_edit(&mut puts, last)?;
    Ok(Edits {
        puts,
        session: without_schema(session, name)?,
    })
}

fn objects_gone<L: Lookup>(
    alloc: Global,
    schema: &Name,
    names: &[Name],
    look: &L,
) -> Result<List<Edit>, Stop>
    ensures seen { Follows (λ _. tt) result (run (sights (L.known look.now)) (every (may_go schema.now) names.now)) }
    ensures changes { IfOk result (λ puts. map change_of puts ≡ map (λ name. gone (object_in schema.now name)) names.now) }
    ensures before { IfOk result (λ puts. AllBefore (L.known look.now) puts) }
    ensures ids { IfOk result (λ puts. AllIds (L.known look.now) puts) }
{
    let mut puts = List::new(alloc);
    'names: for name in names {
        add_edit(&mut puts, object_gone(alloc, schema, name, look)?)?;
    }
    Ok(puts)
}

#[tactic(auto, using(dd_catalog::specs::WalkLaws::run_bind), unfolding(crate::specs::Schemas::may_go))]
fn object_gone<L: Lookup>(alloc: Global, schema: &Name, name: &Name, look: &L) -> Result<Edit, Stop>
    ensures seen { Follows (λ _. tt) result (run (sights (L.known look.now)) (may_go schema.now name.now)) }
    ensures change { IfOk result (λ edit. change_of edit ≡ gone (object_in schema.now name.now)) }
    ensures before { IfOk result (λ edit. IsBefore (L.known look.now edit.key) edit.before) }
    ensures ids { IfOk result (λ edit. HasIds (L.known look.now) edit.key edit.after) }
{
    let object = ObjName {
        schema: schema.copy()?,
        name: name.copy()?,
    };
    let seen = object_at(look, &object)?;
    may_go(alloc, schema, &object, seen, look)?;
    Ok(edit_gone(ObjectKey::Object(object), seen)?)
}

/// A table has no child outside the schema.
fn may_go<L: Lookup>(
    alloc: Global,
    schema: &Name,
    object: &ObjName,
    seen: &Object,
    look: &L,
) -> Result<(), Stop>
    ensures { Follows (λ _. tt) result (run (sights (L.known look.now)) (if is_table (sight seen.now) then no_child_stays (is_in schema.now) object.now else done tt)) }
{
    if !is_table(seen) {
        return Ok(());
    }
    no_child_stays(alloc, &Going::Schema(schema), object, look)
}

/// The current schema is none if it was this one.
fn without_schema(session: &SessionState, name: &Name) -> Result<SessionState, AllocError>
    ensures { IfOk result (λ state. state ≡ without_schema session.now name.now) }
{
    let current = if is_current(&session.current, name) {
        None
    } else {
        session.current.copy()?
    };
    Ok(SessionState {
        number: session.number,
        current,
        tries: session.tries,
    })
}

fn is_current(current: &Option<Name>, name: &Name) -> bool
    ensures { result ≡ is_current current.now name.now }
{
    match current {
        None => false,
        Some(schema) => *schema == *name,
    }
}
