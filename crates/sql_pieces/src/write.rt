ghost use Rattle.std.specs.Prelude.{◌≡◌, ◌++◌, OnOk, decimal};
ghost use Rattle.std.specs.Char.{encode_utf8};
ghost use Rattle.sql_pieces.specs.Pieces.{as_word, as_name, as_digits, as_string, spelled, escaped};

use dd_names::{Name, Text};
use std::alloc::{AllocError, Global};

/// Adds a word of the grammar.
pub fn push_word(out: &mut Text, word: &str) -> Result<(), AllocError>
    ensures { OnOk result (out.new ≡ out.old ++ spelled (as_word word.now)) }
{
    out.push_str(word)
}

/// Adds digits.
pub fn push_digits(out: &mut Text, digits: &str) -> Result<(), AllocError>
    ensures { OnOk result (out.new ≡ out.old ++ spelled (as_digits digits.now)) }
{
    out.push_str(digits)
}

/// Adds a name in back quotes.
pub fn push_name(out: &mut Text, name: &Name) -> Result<(), AllocError>
    ensures { OnOk result (out.new ≡ out.old ++ spelled (as_name name.now)) }
{
    out.push_str("`")?;
    out.push_str(name.as_str())?;
    out.push_str("`")
}

/// Adds a character of a string, with its escape.
#[tactic(auto, using(crate::proofs::Characters::plain_character))]
fn push_character(out: &mut Text, c: char) -> Result<(), AllocError>
    ensures { OnOk result (out.new ≡ out.old ++ escaped (encode_utf8 c)) }
{
    if c == '\'' {
        return out.push_str("''");
    }
    if c == '\\' {
        return out.push_str("\\\\");
    }
    if c == '\n' {
        return out.push_str("\\n");
    }
    if c == '\r' {
        return out.push_str("\\r");
    }
    if c == '\0' {
        return out.push_str("\\0");
    }
    let mut place = [0u8; 4];
    out.push_str(c.encode_utf8(&mut place))
}

/// Adds the characters of a string, with their escapes.
fn push_escaped(out: &mut Text, string: &str) -> Result<(), AllocError>
    ensures { OnOk result (out.new ≡ out.old ++ escaped string.now) }
{
    'characters: for c in string.chars() {
        push_character(out, c)?;
    }
    Ok(())
}

/// Adds a string between two `'`, with its escapes.
pub fn push_string(out: &mut Text, string: &str) -> Result<(), AllocError>
    ensures { OnOk result (out.new ≡ out.old ++ spelled (as_string string.now)) }
{
    out.push_str("'")?;
    push_escaped(out, string)?;
    out.push_str("'")
}

/// Adds a number in decimal digits.
pub fn push_number(alloc: Global, out: &mut Text, number: u128) -> Result<(), AllocError>
    ensures { OnOk result (out.new ≡ out.old ++ spelled (as_digits (decimal number))) }
{
    let digits = format!(in alloc; "{number}")?;
    out.push_str(digits.as_str())
}
