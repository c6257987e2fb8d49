// DROP TABLE (MySQL 8.0 Reference Manual, 13.1.32).
ghost use Rattle.std.specs.Prelude.{◌≡◌, [], ◌∷◌, ◌++◌, Option, None, IfOk, OnOk, map, filter, not, if◌then◌else◌};
ghost use Rattle.std.specs.BTreeSet.{contains};
ghost use Rattle.std.specs.Option.{option_copied};
ghost use Rattle.dd_names.specs.declared.object_name.ObjectKey.{ObjectKey as Key};
ghost use Rattle.dd_catalog.specs.declared.object.Object.{Object as Standing};
ghost use Rattle.dd_catalog.specs.Catalog.{object_cmp};
ghost use Rattle.dd_catalog.specs.LoopLaws.{with_picked};
ghost use Rattle.dd_catalog.specs.Walks.{run, refuse_some, picked, every};
ghost use Rattle.dd_catalog.specs.WalkLaws.{Look};
ghost use Rattle.dd_catalog.specs.Follow.{Follows, sights};
ghost use Rattle.rules_outcome.specs.Decided.{Decides, chosen, change_of, AreBefore, HaveIds};
ghost use Rattle.rules_named.specs.Answers.{AllBefore, AllIds};
ghost use Rattle.rules_schema.specs.Drops.{is_among, first_twice, twice_refused, is_there, gone, full_name, joined, is_left_out, unknown_refused, no_child_stays, tables_gone, drop_table};
ghost use Rattle.rules_schema.specs.Going.{goes};

use crate::children::{Going, edit_gone, is_table, no_child_stays};
use crate::name_sets::{first_twice, set_of};
use dd_catalog::{Lookup, Object, Stop, object_at};
use dd_names::{List, ObjName, ObjectKey, Text, TryCopy};
use rules_named::{add_edit, all_named};
use rules_outcome::{Decided, Edit, Edits};
use sql_ast::SessionState;
use sql_types::ObjRef;
use std::alloc::{AllocError, Global};
use std::collections::BTreeSet;

/// What DROP TABLE comes to: 1066, 1051 unless IF EXISTS is written, or 3730.
#[tactic(auto, using(dd_catalog::specs::WalkLaws::run_bind), unfolding(crate::specs::Drops::drop_table))]
pub fn drop_table<L: Lookup>(
    alloc: Global,
    session: &SessionState,
    if_exists: bool,
    refs: &[ObjRef],
    look: &L,
) -> Result<Decided, Stop>
    ensures exact { Decides result (run (sights (L.known look.now)) (drop_table session.now if_exists refs.now)) }
    ensures before { IfOk result (λ d. AreBefore (L.known look.now) d) }
    ensures ids { IfOk result (λ d. HaveIds (L.known look.now) d) }
{
    let objects = all_named(alloc, &session.current, refs, look)?;
    if objects.len() > 65_536 {
        return Err(rules_refusals::beyond_limit(alloc, "65536")?);
    }
    twice_refused(alloc, first_twice(alloc, objects.as_slice())?)?;
    let tables = tables_there(alloc, objects.as_slice(), look)?;
    let names = tables.names.as_slice();
    left_out_refused(alloc, if_exists, names, objects.as_slice())?;
    no_children_stay(alloc, names, look)?;
    Ok(tables_gone(session, tables)?)
}

fn twice_refused(alloc: Global, twice: Option<&ObjName>) -> Result<(), Stop>
    ensures { (look : Look) → Follows (λ _. tt) result (run look (refuse_some (twice_refused (option_copied twice.entry)))) }
{
    match twice {
        None => Ok(()),
        Some(object) => Err(rules_refusals::nonuniq_table(alloc, &object.name)?),
    }
}

/// The tables that are there, and what dropping them changes.
#[derive(Drop)]
struct Tables {
    names: List<ObjName>,
    puts: List<Edit>,
}

fn tables_there<L: Lookup>(alloc: Global, objects: &[ObjName], look: &L) -> Result<Tables, Stop>
    ensures seen { Follows (λ tables. tables.names) result (run (sights (L.known look.now)) (picked is_there objects.now)) }
    ensures changes { IfOk result (λ tables. map change_of tables.puts ≡ map gone tables.names) }
    ensures before { IfOk result (λ tables. AllBefore (L.known look.now) tables.puts) }
    ensures ids { IfOk result (λ tables. AllIds (L.known look.now) tables.puts) }
{
    let mut tables = Tables {
        names: List::new(alloc),
        puts: List::new(alloc),
    };
    'objects: for object in objects {
        pick_table(&mut tables, object, look)?;
    }
    Ok(tables)
}

/// Adds the object if it is a table.
#[tactic(auto, using(dd_catalog::specs::WalkLaws::run_bind), unfolding(crate::specs::Drops::is_there))]
fn pick_table<L: Lookup>(tables: &mut Tables, object: &ObjName, look: &L) -> Result<bool, Stop>
    ensures seen { Follows (λ picks. picks) result (run (sights (L.known look.now)) (is_there object.now)) }
    ensures names { IfOk result (λ picks. tables.new.names ≡ with_picked picks tables.old.names object.now) }
    ensures changes { map change_of tables.old.puts ≡ map gone tables.old.names → IfOk result (λ _. map change_of tables.new.puts ≡ map gone tables.new.names) }
    ensures before { AllBefore (L.known look.now) tables.old.puts → IfOk result (λ _. AllBefore (L.known look.now) tables.new.puts) }
    ensures ids { AllIds (L.known look.now) tables.old.puts → IfOk result (λ _. AllIds (L.known look.now) tables.new.puts) }
{
    let seen = object_at(look, object)?;
    if !is_table(seen) {
        return Ok(false);
    }
    let edit = edit_gone(ObjectKey::Object(object.copy()?), seen)?;
    add_edit(&mut tables.puts, edit)?;
    tables.names.push(object.copy()?)?;
    Ok(true)
}

/// 1051 with the objects that are no tables, unless IF EXISTS is written.
fn left_out_refused(
    alloc: Global,
    if_exists: bool,
    tables: &[ObjName],
    objects: &[ObjName],
) -> Result<(), Stop>
    ensures { (look : Look) → Follows (λ _. tt) result (run look (refuse_some (if if_exists then None else unknown_refused (filter (is_left_out tables.now) objects.now)))) }
{
    if if_exists {
        return Ok(());
    }
    let unknown = left_out(alloc, tables, objects)?;
    unknown_refused(alloc, unknown.as_slice())
}

fn left_out(
    alloc: Global,
    tables: &[ObjName],
    objects: &[ObjName],
) -> Result<List<ObjName>, AllocError>
    ensures { IfOk result (λ left. left ≡ filter (is_left_out tables.now) objects.now) }
{
    let names = set_of(alloc, tables)?;
    let mut left = List::new(alloc);
    'objects: for object in objects {
        keep_left_out(&mut left, &names, object)?;
    }
    Ok(left)
}

fn keep_left_out(
    left: &mut List<ObjName>,
    names: &BTreeSet<ObjName>,
    object: &ObjName,
) -> Result<(), AllocError>
    ensures { OnOk result (left.new ≡ (if not (contains object_cmp names.now object.now) then left.old ++ object.now ∷ [] else left.old)) }
{
    if !names.contains(object) {
        left.push(object.copy()?)?;
    }
    Ok(())
}

fn unknown_refused(alloc: Global, objects: &[ObjName]) -> Result<(), Stop>
    ensures { (look : Look) → Follows (λ _. tt) result (run look (refuse_some (unknown_refused objects.now))) }
{
    match objects {
        [] => Ok(()),
        [first, others @ ..] => {
            let names = joined(first, others)?;
            Err(rules_refusals::bad_table(alloc, names.as_str())?)
        }
    }
}

/// The names with a comma between each two.
fn joined(first: &ObjName, others: &[ObjName]) -> Result<Text, AllocError>
    ensures { IfOk result (λ text. text ≡ joined (first.now ∷ others.now)) }
{
    let mut text = full_name(first)?;
    'others: for object in others {
        text.push_str(",")?;
        text.push_str(full_name(object)?.as_str())?;
    }
    Ok(text)
}

fn full_name(object: &ObjName) -> Result<Text, AllocError>
    ensures { IfOk result (λ text. text ≡ full_name object.now) }
{
    let mut text = object.schema.to_text()?;
    text.push_str(".")?;
    text.push_str(object.name.as_str())?;
    Ok(text)
}

/// The first table with a child that isn't dropped is 3730.
fn no_children_stay<L: Lookup>(alloc: Global, tables: &[ObjName], look: &L) -> Result<(), Stop>
    ensures { Follows (λ _. tt) result (run (sights (L.known look.now)) (every (no_child_stays (is_among tables.now)) tables.now)) }
{
    let names = set_of(alloc, tables)?;
    all_without_child(alloc, &Going::Tables(&names), tables, look)
}

fn all_without_child<L: Lookup>(
    alloc: Global,
    going: &Going,
    tables: &[ObjName],
    look: &L,
) -> Result<(), Stop>
    ensures { Follows (λ _. tt) result (run (sights (L.known look.now)) (every (no_child_stays (goes going.now)) tables.now)) }
{
    'tables: for table in tables {
        no_child_stays(alloc, going, table, look)?;
    }
    Ok(())
}

/// Without a table that is there, nothing changes.
fn tables_gone(session: &SessionState, tables: Tables) -> Result<Decided, AllocError>
    ensures exact { map change_of tables.puts ≡ map gone tables.names → IfOk result (λ d. chosen d ≡ tables_gone session.now tables.names) }
    ensures before { (known : Key → Option Standing) → AllBefore known tables.puts → IfOk result (λ d. AreBefore known d) }
    ensures ids { (known : Key → Option Standing) → AllIds known tables.puts → IfOk result (λ d. HaveIds known d) }
{
    if tables.names.is_empty() {
        return Ok(Decided::Same);
    }
    Ok(Decided::Edits(Edits {
        puts: tables.puts,
        session: session.copy()?,
    }))
}
