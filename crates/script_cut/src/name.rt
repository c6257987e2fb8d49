// The names of sessions.
ghost use Rattle.std.specs.Prelude.{◌≡◌, false, is_none, not, position};
ghost use Rattle.dd_names.specs.Names.{is_name_byte, name_fault};
ghost use Rattle.script_cut.specs.Names.{is_plain_name, is_session};

use dd_names::is_reserved;
use sql_lex::{are_digits, is_name_byte};
use std::str;

/// The greatest number of characters of a name.
const MAX_CHARACTERS: usize = 64;

fn first_bad_byte(word: &[u8]) -> Option<usize>
    ensures { result ≡ position (λ c. not (is_name_byte c)) word.now }
{
    word.iter().position(|c| !is_name_byte(*c))
}

/// Whether a word is a name, but for the words that are reserved.
fn has_form(word: &[u8]) -> bool
    ensures { result ≡ is_none (name_fault word.now false) }
{
    if word.is_empty() || first_bad_byte(word).is_some() {
        return false;
    }
    !are_digits(word) && word.len() <= MAX_CHARACTERS
}

/// Whether a word is a name that needs no quotes (MySQL 8.0 Reference Manual, 9.2).
#[tactic(auto, unfolding(crate::specs::Names::is_plain_name))]
pub fn is_plain_name(word: &[u8]) -> bool
    ensures { result ≡ is_plain_name word.now }
{
    if !has_form(word) {
        return false;
    }
    match str::from_utf8(word) {
        Ok(text) => !is_reserved(text),
        Err(_) => unreachable!(),
    }
}

/// Whether a word is `session`, in any case.
pub fn is_session(word: &[u8]) -> bool
    ensures { result ≡ is_session word.now }
{
    word.eq_ignore_ascii_case(b"session")
}
