// Listings of one name and one text.
ghost use Rattle.std.specs.Prelude.{◌≡◌, [], ◌∷◌, IfOk};
ghost use Rattle.sql_types.specs.declared.listing.Cell.TheVariants as cells;
ghost use Rattle.rules_show.specs.Listings.{text_listed, database_listed, table_listed, view_listed};

use dd_definitions::{TableDef, ViewDef};
use dd_names::{List, Name, Text};
use show_text::{show_schema, show_table, show_view};
use sql_types::{Cell, ListRow, Listing};
use std::alloc::{AllocError, Global};

/// A schema's name and its text.
#[tactic(auto, unfolding(crate::specs::Listings::database_listed))]
pub(crate) fn database_listed(alloc: Global, name: &Name) -> Result<Listing, AllocError>
    ensures { IfOk result (λ listing. listing ≡ database_listed name.now) }
{
    let text = show_schema(alloc, name)?;
    text_listed(alloc, "Database", "Create Database", name, text)
}

/// A table's name without its schema, and its text.
#[tactic(auto, unfolding(crate::specs::Listings::table_listed))]
pub(crate) fn table_listed(alloc: Global, table: &TableDef) -> Result<Listing, AllocError>
    ensures { IfOk result (λ listing. listing ≡ table_listed table.now) }
{
    let text = show_table(alloc, table)?;
    let name = &table.parts().name.name;
    text_listed(alloc, "Table", "Create Table", name, text)
}

/// A view's name without its schema, and its text.
#[tactic(auto, unfolding(crate::specs::Listings::view_listed))]
pub(crate) fn view_listed(alloc: Global, view: &ViewDef) -> Result<Listing, AllocError>
    ensures { IfOk result (λ listing. listing ≡ view_listed view.now) }
{
    let text = show_view(alloc, view)?;
    let name = &view.parts().name.name;
    text_listed(alloc, "View", "Create View", name, text)
}

#[tactic(auto, unfolding(crate::specs::Listings::text_listed))]
fn text_listed(
    alloc: Global,
    name_title: &str,
    text_title: &str,
    name: &Name,
    text: Text,
) -> Result<Listing, AllocError>
    ensures { IfOk result (λ listing. listing ≡ text_listed name_title.now text_title.now name.now text) }
{
    let header = two_titles(alloc, name_title, text_title)?;
    let mut rows = List::new(alloc);
    rows.push(row_of(alloc, name, text)?)?;
    Ok(Listing { header, rows })
}

fn two_titles(alloc: Global, first: &str, second: &str) -> Result<List<Text>, AllocError>
    ensures { IfOk result (λ titles. titles ≡ first.now ∷ second.now ∷ []) }
{
    let mut titles = List::new(alloc);
    titles.push(Text::of(alloc, first)?)?;
    titles.push(Text::of(alloc, second)?)?;
    Ok(titles)
}

fn row_of(alloc: Global, name: &Name, text: Text) -> Result<ListRow, AllocError>
    ensures { IfOk result (λ row. row ≡ cells.Value name.now ∷ cells.Value text ∷ []) }
{
    let mut row = List::new(alloc);
    row.push(Cell::Value(name.to_text()?))?;
    row.push(Cell::Value(text))?;
    Ok(row)
}
