ghost use Rattle.std.specs.Prelude.{◌≡◌, MatchResult, length, true, false};
ghost use Rattle.sql_types.specs.Numbers.{is_number_text, behind_sign};

use dd_names::{Text, TryCopy, are_digits};
use std::alloc::AllocError;
use std::marker::Model;

/// A whole number as it is written: `+`, `-` or nothing, and one decimal digit or more.
#[derive(Drop)]
pub struct NumberText {
    text: Text,
}

impl Model for NumberText {
    ghost use Rattle.std.specs.Prelude.{ℕ, List, IsTrue};
    ghost use Rattle.sql_types.specs.Numbers.{is_number_text};

    ghost Value = { List ℕ };

    ghost view = { λ n. n.text };

    ghost invariant = { λ n. IsTrue (is_number_text n.text) };
}

impl NumberText {
    /// The number that a text writes, or the text where it writes none. It takes no memory.
    pub fn of(text: Text) -> Result<NumberText, Text>
        ensures { MatchResult result
            (λ number. (number ≡ text) × (is_number_text text ≡ true))
            (λ back. (back ≡ text) × (is_number_text text ≡ false)) }
    {
        if is_number_text(text.as_str().as_bytes()) {
            Ok(NumberText { text })
        } else {
            Err(text)
        }
    }

    /// The number as it is written.
    pub fn as_str(&self) -> &str
        ensures { result.now ≡ self.now }
    {
        self.text.as_str()
    }
}

impl TryCopy for NumberText {
    fn copy(&self) -> Result<NumberText, AllocError> {
        Ok(NumberText {
            text: self.text.copy()?,
        })
    }
}

/// Whether a text is a sign, if one is written, and one decimal digit or more.
pub fn is_number_text(text: &[u8]) -> bool
    ensures { result ≡ is_number_text text.now }
{
    let digits = behind_sign(text);
    !digits.is_empty() && are_digits(digits)
}

/// The text without its first `+` or `-`, if it begins with one.
pub fn behind_sign(text: &[u8]) -> &[u8]
    ensures { result.now ≡ behind_sign text.now }
{
    match text {
        [b'+' | b'-', digits @ ..] => digits,
        _ => text,
    }
}
