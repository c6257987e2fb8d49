// A scan of the rows under a prefix.
ghost use Rattle.std.specs.Prelude.{◌≡◌, ◌<◌, ◌++◌, ◌∷◌, [], length, take, true, None, Some, IfOk, IfErr, OnOk, OnErr};
ghost use Rattle.row_store.specs.Place.{is_behind, is_left, entries_left, last_key};

use row_batch::Bytes;
use std::alloc::{AllocError, Global};
use std::marker::Model;

/// The most rows that a scan gives at a time.
const PIECE: usize = 64;

/// A scan of the rows under a prefix, in key order. It keeps its place by the last key that it gave, so a row that comes or
/// goes behind that place is seen as it then is. Contracts see the prefix and that key.
#[derive(Drop)]
pub struct Scan {
    prefix: Bytes,
    last: Option<Bytes>,
}

/// What a scan has come to.
#[derive(Drop)]
pub enum Scanned {
    /// Copies of the next rows, keys and values in key order; at least one and at most 64.
    Rows(Vec<(Bytes, Bytes)>),
    /// No row is left.
    End,
    /// The next rows aren't there yet: ask again. It never comes while the rows are in memory.
    More,
}

impl Model for Scan {
    ghost use Rattle.row_store.specs.Place.{ScanValue};

    ghost Value = { ScanValue };

    ghost view = { λ s. record { prefix = s.prefix; last = s.last } };
}

impl Scan {
    /// A scan of all the rows under a prefix.
    pub fn new(alloc: Global, prefix: &[u8]) -> Result<Scan, AllocError>
        ensures { IfOk result (λ scan. scan ≡ record { prefix = prefix.now; last = None }) }
    {
        Ok(Scan {
            prefix: Bytes::of(alloc, prefix)?,
            last: None,
        })
    }

    fn is_behind(&self, key: &[u8]) -> bool
        ensures { result ≡ is_behind self.now.last key.now }
    {
        match &self.last {
            Some(last) => last.as_slice().cmp(key).is_lt(),
            None => true,
        }
    }

    fn is_left(&self, key: &[u8]) -> bool
        ensures { result ≡ is_left self.now key.now }
    {
        key.starts_with(self.prefix.as_slice()) && self.is_behind(key)
    }

    /// Puts the place of the scan behind a key.
    pub(crate) fn move_to(&mut self, key: Bytes)
        ensures { self.new ≡ record self.old { last = Some key } }
    {
        self.last = Some(key);
    }
}

/// Copies of the first rows that are left to a scan, at most a piece of them.
pub fn piece_of(
    alloc: Global,
    rows: &[(Bytes, Bytes)],
    scan: &Scan,
) -> Result<Vec<(Bytes, Bytes)>, AllocError>
    ensures piece { IfOk result (λ piece. piece.items ≡ take 64 (entries_left scan.now rows.now)) }
    ensures wanted { IfErr result (λ _. 0 < length (entries_left scan.now rows.now)) }
{
    let mut piece = Vec::new(alloc);
    'each: for row in rows {
        if piece.len() == PIECE {
            return Ok(piece);
        }
        pick(alloc, &mut piece, row, scan)?;
    }
    Ok(piece)
}

/// Adds a copy of a row that is left to a scan.
fn pick(
    alloc: Global,
    piece: &mut Vec<(Bytes, Bytes)>,
    row: &(Bytes, Bytes),
    scan: &Scan,
) -> Result<(), AllocError>
    ensures picked { OnOk result (piece.new.items ≡ piece.old.items ++ entries_left scan.now (row.now ∷ [])) }
    ensures wanted { OnErr result (is_left scan.now row.now.0 ≡ true) }
{
    if scan.is_left(row.0.as_slice()) {
        piece.push((
            Bytes::of(alloc, row.0.as_slice())?,
            Bytes::of(alloc, row.1.as_slice())?,
        ))?;
    }
    Ok(())
}

/// A copy of the key of the last row, if there is one.
pub fn key_of_last(alloc: Global, rows: &[(Bytes, Bytes)]) -> Result<Option<Bytes>, AllocError>
    ensures key { IfOk result (λ key. key ≡ last_key None rows.now) }
    ensures wanted { IfErr result (λ _. 0 < length rows.now) }
{
    match rows.last() {
        Some(row) => Ok(Some(Bytes::of(alloc, row.0.as_slice())?)),
        None => Ok(None),
    }
}
