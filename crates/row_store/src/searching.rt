// A search for the value under a key.
ghost use Rattle.std.specs.Prelude.{◌≡◌, IfOk};

use row_batch::Bytes;
use std::alloc::{AllocError, Global};
use std::marker::Model;

/// A search for the value under a key, which contracts see as the key.
#[derive(Drop)]
pub struct Search {
    key: Bytes,
}

/// What a search has come to.
#[derive(Drop)]
pub enum Got {
    /// A copy of the value under the key.
    Value(Bytes),
    /// There is no row of the key.
    None,
    /// The search isn't done: ask again. It never comes while the rows are in memory.
    More,
}

impl Model for Search {
    ghost use Rattle.std.specs.Prelude.{ℕ, List};

    ghost Value = { List ℕ };

    ghost view = { λ s. s.key };
}

impl Search {
    /// A search for a key.
    pub fn new(alloc: Global, key: &[u8]) -> Result<Search, AllocError>
        ensures { IfOk result (λ made. made ≡ key.now) }
    {
        Ok(Search {
            key: Bytes::of(alloc, key)?,
        })
    }

    /// The key.
    pub(crate) fn key(&self) -> &[u8]
        ensures { result.now ≡ self.now }
    {
        self.key.as_slice()
    }
}
