// The columns of a view, through its sources.
ghost use Rattle.std.specs.Prelude.{◌≡◌, ◌+◌, ◌<◌, ◌≤◌, [], IfOk, OnOk};
ghost use Rattle.dd_catalog.specs.Sights.{sight, ViewThere};
ghost use Rattle.dd_catalog.specs.WalkLaws.{Look};
ghost use Rattle.dd_catalog.specs.Walks.{run, over, each};
ghost use Rattle.dd_catalog.specs.Follow.{Follows, sights};
ghost use Rattle.std.specs.Option.{option_copied};
ghost use Rattle.rules_views.specs.Columns.{Finds, sought, is_on, one_output, one_source, source_seen, again, found_at, greatest, through_sources, view_whole};

use crate::shown::{Search, Shown, as_output, column_shown, greatest};
use dd_catalog::{Lookup, Object, Stop, object_at};
use dd_definitions::{ColumnDef, TableDef, ViewColumn, ViewParts, ViewSource};
use dd_names::{List, ObjName, TryCopy};
use rules_refusals::{view_invalid, views_too_deep};
use std::alloc::{AllocError, Global};

/// By what is seen at a source, behind the views of the way; `left` views may still stand on it.
#[cycle(sources)]
pub(crate) fn source_seen<L: Lookup>(
    alloc: Global,
    left: usize,
    asked: &ObjName,
    search: &mut Search,
    name: &ObjName,
    object: &Object,
    look: &L,
) -> Result<Shown, Stop>
    ensures exact { Follows (λ shown. sought shown search.new.finds.entries) result (run (sights (L.known look.now)) (source_seen left asked.now search.old.way.items search.old.finds.entries name.now (sight object.now))) }
    ensures way { OnOk result (search.new.way.items ≡ search.old.way.items) }
    ensures height { IfOk result (λ shown. shown.height ≤ left) }
{
    match object {
        Object::Table { def, .. } => Ok(table_shown(def)?),
        Object::View { def, .. } => view_seen(alloc, left, asked, search, name, def.parts(), look),
        _ => Err(view_invalid(alloc, asked)?),
    }
}

fn table_shown(table: &TableDef) -> Result<Shown, AllocError>
    ensures columns { IfOk result (λ shown. shown.columns ≡ table.now.columns) }
    ensures height { IfOk result (λ shown. shown.height ≡ 0) }
{
    Ok(Shown {
        columns: table.parts().columns.copy()?,
        height: 0,
    })
}

/// A view on the way: 1356. One that was found whole is taken as it was found.
#[cycle(sources)]
fn view_seen<L: Lookup>(
    alloc: Global,
    left: usize,
    asked: &ObjName,
    search: &mut Search,
    name: &ObjName,
    parts: &ViewParts,
    look: &L,
) -> Result<Shown, Stop>
    ensures exact { Follows (λ shown. sought shown search.new.finds.entries) result (run (sights (L.known look.now)) (source_seen left asked.now search.old.way.items search.old.finds.entries name.now (ViewThere parts.now))) }
    ensures way { OnOk result (search.new.way.items ≡ search.old.way.items) }
    ensures height { IfOk result (λ shown. shown.height ≤ left) }
{
    if is_on(name, search.way.as_slice()) {
        return Err(view_invalid(alloc, asked)?);
    }
    match found_at(search, name) {
        Some(shown) => again(alloc, left, shown),
        None => view_whole(alloc, left, asked, search, name, parts, look),
    }
}

fn found_at<'a>(search: &'a Search, name: &ObjName) -> Option<&'a Shown>
    ensures { option_copied result ≡ found_at search.now.finds.entries name.now }
{
    search.finds.get(name)
}

/// A view that isn't found yet; 9003 where none may stand on the way any more.
#[cycle(sources)]
fn view_whole<L: Lookup>(
    alloc: Global,
    left: usize,
    asked: &ObjName,
    search: &mut Search,
    name: &ObjName,
    parts: &ViewParts,
    look: &L,
) -> Result<Shown, Stop>
    ensures exact { Follows (λ shown. sought shown search.new.finds.entries) result (run (sights (L.known look.now)) (view_whole left asked.now search.old.way.items search.old.finds.entries name.now parts.now)) }
    ensures way { OnOk result (search.new.way.items ≡ search.old.way.items) }
    ensures height { IfOk result (λ shown. shown.height ≤ left) }
{
    if left == 0 {
        return Err(views_too_deep(alloc));
    }
    search.way.push(name.copy()?)?;
    let shown = through_sources(alloc, left - 1, asked, search, name, parts, look)?;
    search.way.pop();
    Ok(shown)
}

fn is_on(name: &ObjName, way: &[ObjName]) -> bool
    ensures { result ≡ is_on name.now way.now }
{
    way.iter().any(|other| name == other)
}

/// A view that was found whole; 9003 where it is too high for the way.
fn again(alloc: Global, left: usize, shown: &Shown) -> Result<Shown, Stop>
    ensures exact { (look : Look) (finds : Finds) → Follows (λ shown. sought shown finds) result (run look (again left shown.now finds)) }
    ensures height { IfOk result (λ again. again.height ≤ left) }
{
    if left < shown.height {
        return Err(views_too_deep(alloc));
    }
    Ok(shown.copy()?)
}

/// A view through its sources, behind the way.
#[tactic(auto, using(dd_catalog::specs::WalkLaws::run_bind), unfolding(crate::specs::Columns::through_sources))]
#[cycle(sources)]
fn through_sources<L: Lookup>(
    alloc: Global,
    left: usize,
    asked: &ObjName,
    search: &mut Search,
    name: &ObjName,
    parts: &ViewParts,
    look: &L,
) -> Result<Shown, Stop>
    requires { left < 18446744073709551615 }
    ensures exact { Follows (λ shown. sought shown search.new.finds.entries) result (run (sights (L.known look.now)) (through_sources (source_seen left asked.now search.old.way.items) asked.now search.old.finds.entries name.now parts.now)) }
    ensures way { OnOk result (search.new.way.items ≡ search.old.way.items) }
    ensures height { IfOk result (λ shown. shown.height ≤ left + 1) }
{
    let sources = all_sources(alloc, left, asked, search, parts.sources.as_slice(), look)?;
    let columns = outputs(alloc, asked, sources.as_slice(), parts.outputs.as_slice())?;
    let shown = Shown {
        columns,
        height: greatest(sources.as_slice()) + 1,
    };
    search.finds.insert(name.copy()?, shown.copy()?)?;
    Ok(shown)
}

/// What each source shows, in order.
#[cycle(sources)]
fn all_sources<L: Lookup>(
    alloc: Global,
    left: usize,
    asked: &ObjName,
    search: &mut Search,
    sources: &[ViewSource],
    look: &L,
) -> Result<List<Shown>, Stop>
    ensures exact { Follows (λ shown. record { shown = shown; finds = search.new.finds.entries }) result (run (sights (L.known look.now)) (over (one_source (source_seen left asked.now search.old.way.items)) (record { shown = []; finds = search.old.finds.entries }) sources.now)) }
    ensures way { OnOk result (search.new.way.items ≡ search.old.way.items) }
    ensures height { IfOk result (λ shown. greatest 0 shown ≤ left) }
{
    let mut shown = List::new(alloc);
    'sources: for source in sources {
        add_source(alloc, left, asked, search, &mut shown, source, look)?;
    }
    Ok(shown)
}

/// What one source more shows.
#[cycle(sources)]
#[tactic(auto, using(dd_catalog::specs::WalkLaws::run_bind, crate::proofs::Heights::greatest_push), unfolding(crate::specs::Columns::one_source))]
fn add_source<L: Lookup>(
    alloc: Global,
    left: usize,
    asked: &ObjName,
    search: &mut Search,
    shown: &mut List<Shown>,
    source: &ViewSource,
    look: &L,
) -> Result<(), Stop>
    ensures exact { Follows (λ _. record { shown = shown.new; finds = search.new.finds.entries }) result (run (sights (L.known look.now)) (one_source (source_seen left asked.now search.old.way.items) (record { shown = shown.old; finds = search.old.finds.entries }) source.now)) }
    ensures way { OnOk result (search.new.way.items ≡ search.old.way.items) }
    ensures height { greatest 0 shown.old ≤ left → OnOk result (greatest 0 shown.new ≤ left) }
{
    let object = object_at(look, &source.object)?;
    let more = source_seen(alloc, left, asked, search, &source.object, object, look)?;
    Ok(shown.push(more)?)
}

/// The columns by the outputs, in order.
fn outputs(
    alloc: Global,
    asked: &ObjName,
    shown: &[Shown],
    outputs: &[ViewColumn],
) -> Result<List<ColumnDef>, Stop>
    ensures { (look : Look) → Follows (λ columns. columns) result (run look (each (one_output asked.now shown.now) outputs.now)) }
{
    let mut columns = List::new(alloc);
    'outputs: for output in outputs {
        columns.push(one_output(alloc, asked, shown, output)?)?;
    }
    Ok(columns)
}

fn one_output(
    alloc: Global,
    asked: &ObjName,
    shown: &[Shown],
    output: &ViewColumn,
) -> Result<ColumnDef, Stop>
    ensures { (look : Look) → Follows (λ column. column) result (run look (one_output asked.now shown.now output.now)) }
{
    match column_shown(&output.column, shown.get(output.source as usize)) {
        None => Err(view_invalid(alloc, asked)?),
        Some(column) => Ok(as_output(&output.output, column)?),
    }
}
