// The text of an answer.
ghost use Rattle.std.specs.Prelude.{◌≡◌, ◌++◌, ◌∷◌, [], IfOk, OnOk, codes, map};
ghost use Rattle.std.specs.Fmt.{decimal};
ghost use Rattle.std.specs.List.{flat_map};
ghost use Rattle.dd_errors.specs.Errors.{error_text};
ghost use Rattle.dd_run.specs.Printed.{answer_text, behind_tab, cell_text, entry_text, error_line, escaped, line_of, listing_text, no_number_left, row_text};

use dd_engine::{Answer, Entry};
use dd_errors::SqlError;
use dd_names::{List, Text};
use sql_types::{Cell, ListRow, Listing};
use std::alloc::{AllocError, Global};

/// The text of an entry's answer, with its line ends.
pub fn entry_text(alloc: Global, entry: &Entry) -> Result<Vec<u8>, AllocError>
    ensures { IfOk result (λ text. text.items ≡ entry_text entry.now) }
{
    let mut out = Vec::new(alloc);
    push_answer(alloc, &mut out, &entry.answer)?;
    Ok(out)
}

fn push_answer(alloc: Global, out: &mut Vec<u8>, answer: &Answer) -> Result<(), AllocError>
    ensures { OnOk result (out.new.items ≡ out.old.items ++ answer_text answer.now) }
{
    match answer {
        Answer::Done => out.extend_from_slice(b"OK\n"),
        Answer::Rows(listing) => push_listing(out, listing),
        Answer::Error(error) => push_error(alloc, out, error),
        Answer::Memory => out.extend_from_slice(b"NO MEMORY\n"),
        Answer::NoSpaceId { .. } => push_error(alloc, out, &no_number_left(alloc)),
    }
}

#[tactic(auto, unfolding(dd_errors::specs::Errors::form_of))]
fn no_number_left(alloc: Global) -> SqlError
    ensures { result ≡ no_number_left }
{
    SqlError::of(9002, List::new(alloc))
}

fn push_error(alloc: Global, out: &mut Vec<u8>, error: &SqlError) -> Result<(), AllocError>
    ensures { OnOk result (out.new.items ≡ out.old.items ++ error_line error.now) }
{
    push_number(alloc, out, error.number())?;
    push_state(out, &error.state())?;
    push_message(alloc, out, error)
}

fn push_number(alloc: Global, out: &mut Vec<u8>, number: u16) -> Result<(), AllocError>
    ensures { OnOk result (out.new.items ≡ out.old.items ++ codes "ERROR " ++ decimal number) }
{
    let number = number.to_string(alloc)?;
    out.extend_from_slice(b"ERROR ")?;
    out.extend_from_slice(number.as_bytes())
}

fn push_state(out: &mut Vec<u8>, state: &[u8]) -> Result<(), AllocError>
    ensures { OnOk result (out.new.items ≡ out.old.items ++ codes " (" ++ state.now ++ codes "): ") }
{
    out.extend_from_slice(b" (")?;
    out.extend_from_slice(state)?;
    out.extend_from_slice(b"): ")
}

fn push_message(alloc: Global, out: &mut Vec<u8>, error: &SqlError) -> Result<(), AllocError>
    ensures { OnOk result (out.new.items ≡ out.old.items ++ error_text error.now ++ 10 ∷ []) }
{
    let text = error.text(alloc)?;
    out.extend_from_slice(text.as_str().as_bytes())?;
    out.extend_from_slice(b"\n")
}

fn push_listing(out: &mut Vec<u8>, listing: &Listing) -> Result<(), AllocError>
    ensures { OnOk result (out.new.items ≡ out.old.items ++ listing_text listing.now) }
{
    push_header(out, listing.header.as_slice())?;
    push_rows(out, listing.rows.as_slice())
}

fn push_header(out: &mut Vec<u8>, titles: &[Text]) -> Result<(), AllocError>
    ensures { OnOk result (out.new.items ≡ out.old.items ++ line_of titles.now) }
{
    if let [first, rest @ ..] = titles {
        out.extend_from_slice(first.as_str().as_bytes())?;
        push_titles(out, rest)?;
    }
    out.extend_from_slice(b"\n")
}

fn push_titles(out: &mut Vec<u8>, titles: &[Text]) -> Result<(), AllocError>
    ensures { OnOk result (out.new.items ≡ out.old.items ++ flat_map behind_tab titles.now) }
{
    'titles: for title in titles {
        out.push(b'\t')?;
        out.extend_from_slice(title.as_str().as_bytes())?;
    }
    Ok(())
}

fn push_rows(out: &mut Vec<u8>, rows: &[ListRow]) -> Result<(), AllocError>
    ensures { OnOk result (out.new.items ≡ out.old.items ++ flat_map row_text rows.now) }
{
    'rows: for row in rows {
        push_row(out, row.as_slice())?;
    }
    Ok(())
}

fn push_row(out: &mut Vec<u8>, cells: &[Cell]) -> Result<(), AllocError>
    ensures { OnOk result (out.new.items ≡ out.old.items ++ row_text cells.now) }
{
    if let [first, rest @ ..] = cells {
        push_cell(out, first)?;
        push_cells(out, rest)?;
    }
    out.extend_from_slice(b"\n")
}

fn push_cells(out: &mut Vec<u8>, cells: &[Cell]) -> Result<(), AllocError>
    ensures { OnOk result (out.new.items ≡ out.old.items ++ flat_map behind_tab (map cell_text cells.now)) }
{
    'cells: for cell in cells {
        out.push(b'\t')?;
        push_cell(out, cell)?;
    }
    Ok(())
}

fn push_cell(out: &mut Vec<u8>, cell: &Cell) -> Result<(), AllocError>
    ensures { OnOk result (out.new.items ≡ out.old.items ++ cell_text cell.now) }
{
    match cell {
        Cell::Null => out.extend_from_slice(b"NULL"),
        Cell::Value(text) => push_value(out, text.as_str().as_bytes()),
    }
}

fn push_value(out: &mut Vec<u8>, value: &[u8]) -> Result<(), AllocError>
    ensures { OnOk result (out.new.items ≡ out.old.items ++ flat_map escaped value.now) }
{
    'bytes: for c in value {
        push_escaped(out, *c)?;
    }
    Ok(())
}

fn push_escaped(out: &mut Vec<u8>, c: u8) -> Result<(), AllocError>
    ensures { OnOk result (out.new.items ≡ out.old.items ++ escaped c) }
{
    match c {
        b'\n' => out.extend_from_slice(b"\\n"),
        b'\t' => out.extend_from_slice(b"\\t"),
        b'\\' => out.extend_from_slice(b"\\\\"),
        0 => out.extend_from_slice(b"\\0"),
        _ => out.extend_from_slice(&[c]),
    }
}
