// Rows, cell by cell.
ghost use Rattle.std.specs.Prelude.{◌≡◌, ◌∷◌, ◌++◌, [], OnOk, IfOk, map, true, false};
ghost use Rattle.sql_types.specs.declared.listing.Cell.TheVariants as cells;
ghost use Rattle.info_schema.specs.Columns.{cell_of, yes_or_no, extra_of};
ghost use Rattle.info_schema.specs.Tables.{number};

use dd_names::{List, Name, Text, TryCopy};
use sql_types::{Cell, ListRow};
use std::alloc::{AllocError, Global};

/// A text more.
pub(crate) fn push_text(alloc: Global, row: &mut ListRow, text: &str) -> Result<(), AllocError>
    ensures { OnOk result (row.new ≡ row.old ++ cells.Value text.now ∷ []) }
{
    Ok(row.push(Cell::Value(Text::of(alloc, text)?))?)
}

/// A name more.
pub(crate) fn push_name(row: &mut ListRow, name: &Name) -> Result<(), AllocError>
    ensures { OnOk result (row.new ≡ row.old ++ cells.Value name.now ∷ []) }
{
    Ok(row.push(Cell::Value(name.to_text()?))?)
}

/// A made text more.
pub(crate) fn push_made(row: &mut ListRow, text: Text) -> Result<(), AllocError>
    ensures { OnOk result (row.new ≡ row.old ++ cells.Value text ∷ []) }
{
    Ok(row.push(Cell::Value(text))?)
}

pub(crate) fn push_null(row: &mut ListRow) -> Result<(), AllocError>
    ensures { OnOk result (row.new ≡ row.old ++ cells.Null ∷ []) }
{
    Ok(row.push(Cell::Null)?)
}

/// A default more, and NULL where there is none.
pub(crate) fn push_default(row: &mut ListRow, text: &Option<Text>) -> Result<(), AllocError>
    ensures { OnOk result (row.new ≡ row.old ++ cell_of text.now ∷ []) }
{
    match text {
        None => push_null(row),
        Some(text) => push_made(row, text.copy()?),
    }
}

/// A number more, in decimal digits.
pub(crate) fn push_number(alloc: Global, row: &mut ListRow, value: usize) -> Result<(), AllocError>
    ensures { OnOk result (row.new ≡ row.old ++ number value ∷ []) }
{
    let digits = format!(in alloc; "{value}")?;
    push_made(row, Text::from_string(digits))
}

/// Titles, in order.
pub(crate) fn titles(alloc: Global, words: &[&str]) -> Result<List<Text>, AllocError>
    ensures { IfOk result (λ titles. titles ≡ map (λ word. word.now) words.now) }
{
    let mut titles = List::new(alloc);
    'words: for word in words {
        titles.push(Text::of(alloc, word)?)?;
    }
    Ok(titles)
}

pub(crate) fn yes_or_no(yes: bool) -> &'static str
    ensures { result.now ≡ yes_or_no yes }
{
    if yes { "YES" } else { "NO" }
}

pub(crate) fn extra_of(auto: bool) -> &'static str
    ensures { result.now ≡ extra_of auto }
{
    if auto { "auto_increment" } else { "" }
}
