//! Answers as text.
use dd_errors::SqlError;
use dd_names::Text;
use sql_types::{Cell, Listing};
use std::alloc::{AllocError, Global};

/// The number and the text of an error.
pub fn push_error(alloc: Global, out: &mut String, error: &SqlError) -> Result<(), AllocError> {
    let text = error.text(alloc)?;
    push_numbered(out, error.number(), text.as_str())
}

fn push_numbered(out: &mut String, number: u16, text: &str) -> Result<(), AllocError> {
    write!(out, "{number} {text}")
}

/// A line of titles and a line for each row, with `|` between two values.
pub fn push_listing(out: &mut String, listing: &Listing) -> Result<(), AllocError> {
    push_titles(out, listing.header.as_slice())?;
    'rows: for row in listing.rows.as_slice() {
        push_row(out, row.as_slice())?;
    }
    Ok(())
}

fn push_titles(out: &mut String, titles: &[Text]) -> Result<(), AllocError> {
    let mut before = "";
    'titles: for title in titles {
        out.push_str(before)?;
        out.push_str(title.as_str())?;
        before = "|";
    }
    Ok(())
}

fn push_row(out: &mut String, cells: &[Cell]) -> Result<(), AllocError> {
    let mut before = "\n";
    'cells: for cell in cells {
        out.push_str(before)?;
        out.push_str(text_of(cell))?;
        before = "|";
    }
    Ok(())
}

fn text_of(cell: &Cell) -> &str {
    match cell {
        Cell::Null => "NULL",
        Cell::Value(text) => text.as_str(),
    }
}
