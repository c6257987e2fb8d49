// What a source of a view shows.
ghost use Rattle.std.specs.Prelude.{◌≡◌, [], IfOk};
ghost use Rattle.std.specs.Option.{option_copied};
ghost use Rattle.rules_views.specs.Columns.{higher, greatest, column_named, column_shown, as_output};

use dd_definitions::ColumnDef;
use dd_names::{List, Name, ObjName, TryCopy};
use std::alloc::{AllocError, Global};
use std::collections::BTreeMap;

/// The columns of a table or a view, and how many views stand one on the other down to the tables that they come from.
#[derive(Drop)]
pub(crate) struct Shown {
    pub(crate) columns: List<ColumnDef>,
    pub(crate) height: usize,
}

impl TryCopy for Shown {
    fn copy(&self) -> Result<Shown, AllocError> {
        Ok(Shown {
            columns: self.columns.copy()?,
            height: self.height,
        })
    }
}

/// The views on the way from the one that was asked for, and those that were found whole.
#[derive(Drop)]
pub(crate) struct Search {
    pub(crate) way: Vec<ObjName>,
    pub(crate) finds: BTreeMap<ObjName, Shown>,
}

impl Search {
    pub(crate) fn new(alloc: Global) -> Search
        ensures way { result.way.items ≡ [] }
        ensures finds { result.finds.entries ≡ [] }
    {
        Search {
            way: Vec::new(alloc),
            finds: BTreeMap::new(alloc),
        }
    }
}

/// The greatest height.
pub(crate) fn greatest(shown: &[Shown]) -> usize
    ensures { result ≡ greatest 0 shown.now }
{
    let mut most = 0;
    'sources: for source in shown {
        most = higher(most, source.height);
    }
    most
}

fn higher(a: usize, b: usize) -> usize
    ensures { result ≡ higher a b }
{
    if a < b { b } else { a }
}

/// The column of this name in any case, where the source is there and has it.
pub(crate) fn column_shown<'a>(name: &Name, shown: Option<&'a Shown>) -> Option<&'a ColumnDef>
    ensures { option_copied result ≡ column_shown name.now (option_copied shown.entry) }
{
    column_named(name, shown?.columns.as_slice())
}

fn column_named<'a>(name: &Name, columns: &'a [ColumnDef]) -> Option<&'a ColumnDef>
    ensures { option_copied result ≡ column_named name.now columns.now }
{
    columns.iter().find(|column| column.name.same(name))
}

/// The column under the name of an output.
pub(crate) fn as_output(output: &Name, column: &ColumnDef) -> Result<ColumnDef, AllocError>
    ensures { IfOk result (λ made. made ≡ as_output output.now column.now) }
{
    let mut made = column.copy()?;
    made.name = output.copy()?;
    made.auto = false;
    Ok(made)
}
