use dd_names::{List, Text};

/// What stands in one place of a listing.
#[derive(Drop)]
pub enum Cell {
    Null,
    Value(Text),
}

/// The cells of one row, one for each title of the header.
pub type ListRow = List<Cell>;

/// Rows under a header.
#[derive(Drop)]
pub struct Listing {
    pub header: List<Text>,
    pub rows: List<ListRow>,
}
