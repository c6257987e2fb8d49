// The columns that a statement defines (MySQL 8.0 Reference Manual, 13.1.20).
ghost use Rattle.std.specs.Prelude.{[], OnOk};
ghost use Rattle.std.specs.List.{flat_map};
ghost use Rattle.dd_catalog.specs.WalkLaws.{Look};
ghost use Rattle.dd_catalog.specs.Walks.{run, over};
ghost use Rattle.dd_catalog.specs.Follow.{Follows};
ghost use Rattle.rules_create.specs.Tables.{column_in, one_column, all_columns};
ghost use Rattle.rules_create.specs.Made.{over_each, AreFoldedNames};

use dd_catalog::Stop;
use dd_definitions::ColumnDef;
use dd_names::{List, Name};
use rules_elements::check_column;
use sql_ast::Element;
use sql_types::ColumnWords;
use std::alloc::Global;
use std::collections::BTreeSet;

/// The columns in order. None: 1113. More than 1017: 1117.
#[tactic(auto, using(dd_catalog::specs::WalkLaws::run_bind), unfolding(crate::specs::Tables::all_columns))]
pub(crate) fn all_columns(alloc: Global, elements: &[Element]) -> Result<List<ColumnDef>, Stop>
    ensures { (look : Look) → Follows (λ columns. columns) result (run look (all_columns (flat_map column_in elements.now))) }
{
    let columns = each_column(alloc, elements)?;
    if columns.len() == 0 {
        return Err(rules_refusals::table_must_have_columns(alloc));
    }
    if columns.len() > 1017 {
        return Err(rules_refusals::too_many_fields(alloc));
    }
    Ok(columns)
}

fn each_column(alloc: Global, elements: &[Element]) -> Result<List<ColumnDef>, Stop>
    ensures { (look : Look) → Follows (λ columns. columns) result (run look (over one_column [] (flat_map column_in elements.now))) }
{
    let mut names = BTreeSet::new(alloc);
    let mut columns = List::new(alloc);
    'elements: for element in elements {
        column_if(alloc, &mut names, &mut columns, element)?;
    }
    Ok(columns)
}

/// The column of an element, where it is one.
#[tactic(auto, using(crate::proofs::Flat::over_one))]
fn column_if(
    alloc: Global,
    names: &mut BTreeSet<Name>,
    before: &mut List<ColumnDef>,
    element: &Element,
) -> Result<(), Stop>
    requires { AreFoldedNames names.old before.old }
    ensures exact { (look : Look) → Follows (λ _. before.new) result (run look (over_each one_column column_in before.old element.now)) }
    ensures names { OnOk result (AreFoldedNames names.new before.new) }
{
    match element {
        Element::Column(words) => one_column(alloc, names, before, words),
        _ => Ok(()),
    }
}

/// One column more. A name that is there: 1060.
#[tactic(auto, using(dd_catalog::specs::WalkLaws::run_bind), unfolding(crate::specs::Tables::one_column))]
fn one_column(
    alloc: Global,
    names: &mut BTreeSet<Name>,
    before: &mut List<ColumnDef>,
    words: &ColumnWords,
) -> Result<(), Stop>
    requires { AreFoldedNames names.old before.old }
    ensures exact { (look : Look) → Follows (λ _. before.new) result (run look (one_column before.old words.now)) }
    ensures names { OnOk result (AreFoldedNames names.new before.new) }
{
    if !names.insert(words.name.fold()?)? {
        return Err(rules_refusals::dup_fieldname(alloc, &words.name)?);
    }
    let column = check_column(alloc, words)?;
    before.push(column)?;
    Ok(())
}
