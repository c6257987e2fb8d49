// How much of listings a history keeps.
ghost use Rattle.std.specs.Prelude.{◌≡◌, ◌+◌, IfSome};
ghost use Rattle.std.specs.List.{sum_by};
ghost use Rattle.dd_engine.specs.Listed.{cell_size, listing_size, row_size};

use sql_types::{Cell, ListRow, Listing};

/// The greatest size of all listings of a history, which is about the number of bytes that they take in memory. A statement
/// whose listing has no room beside those before it is answered by want of memory.
pub const MAX_LISTED: u64 = 536_870_912;

/// What is left of the room behind the listing, if it has room for it.
pub(crate) fn room_behind(listing: &Listing, room: u64) -> Option<u64>
    ensures { IfSome result (λ left. listing_size listing.now + left ≡ room) }
{
    room_behind_rows(listing.rows.as_slice(), room.checked_sub(512)?)
}

fn room_behind_rows(rows: &[ListRow], room: u64) -> Option<u64>
    ensures { IfSome result (λ left. sum_by row_size rows.now + left ≡ room) }
{
    let mut left = room;
    'rows: for row in rows {
        left = room_behind_row(row.as_slice(), left)?;
    }
    Some(left)
}

fn room_behind_row(cells: &[Cell], room: u64) -> Option<u64>
    ensures { IfSome result (λ left. row_size cells.now + left ≡ room) }
{
    room_behind_cells(cells, room.checked_sub(128)?)
}

fn room_behind_cells(cells: &[Cell], room: u64) -> Option<u64>
    ensures { IfSome result (λ left. sum_by cell_size cells.now + left ≡ room) }
{
    let mut left = room;
    'cells: for cell in cells {
        left = room_behind_cell(cell, left)?;
    }
    Some(left)
}

fn room_behind_cell(cell: &Cell, room: u64) -> Option<u64>
    ensures { IfSome result (λ left. cell_size cell.now + left ≡ room) }
{
    let left = room.checked_sub(96)?;
    match cell {
        Cell::Null => Some(left),
        Cell::Value(text) => left.checked_sub(text.len() as u64),
    }
}
