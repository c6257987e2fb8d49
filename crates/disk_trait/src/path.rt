ghost use Rattle.std.specs.Prelude.{◌≡◌, IfOk};

use std::alloc::{AllocError, Global};
use std::marker::Model;

/// A path as text, which contracts see as its bytes.
#[derive(Drop)]
pub struct PathText {
    text: String,
}

impl Model for PathText {
    ghost use Rattle.std.specs.Prelude.{ℕ, List};
    ghost use Rattle.std.specs.String.{string_bytes};

    ghost Value = { List ℕ };

    ghost view = { λ p. string_bytes p.text };
}

impl PathText {
    /// A copy of a text.
    pub fn of(alloc: Global, text: &str) -> Result<PathText, AllocError>
        ensures { IfOk result (λ path. path ≡ text.now) }
    {
        Ok(PathText {
            text: text.to_string(alloc)?,
        })
    }

    /// The path as a `&str`.
    pub fn as_str(&self) -> &str
        ensures { result.now ≡ self.now }
    {
        self.text.as_str()
    }
}
