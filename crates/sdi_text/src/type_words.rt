// The type that a text is.
ghost use Rattle.std.specs.Prelude.{◌≡◌, ◌++◌, ◌<◌, ◌^◌, ℕ, Some, codes, decimal, option_map};
ghost use Rattle.sql_types.specs.declared.choices.ColumnType.{ColumnType};
ghost use Rattle.show_text.specs.Columns.{type_text, with_length};
ghost use Rattle.sdi_text.specs.Types.{plain_type, other_type, unsigned_type};
ghost use Rattle.sdi_text.specs.Reading.{IsHeldType};

use sql_types::{ColumnType, IntSize};

/// The type that SHOW CREATE TABLE writes like this.
pub(crate) fn type_of(text: &str) -> Option<ColumnType>
    ensures { (kind : ColumnType) → IsHeldType kind → text.now ≡ type_text kind → result ≡ Some kind }
{
    match plain_type(text) {
        Some(kind) => Some(kind),
        None => long_type(text.as_bytes()),
    }
}

/// A type with a length.
fn long_type(text: &[u8]) -> Option<ColumnType>
    ensures { (length : ℕ) → length < 2 ^ 16 → (text.now ≡ with_length (codes "char") length → result ≡ Some (ColumnType.Char length)) × (text.now ≡ with_length (codes "varchar") length → result ≡ Some (ColumnType.VarChar length)) }
{
    match text {
        [b'c', b'h', b'a', b'r', b'(', rest @ ..] => char_of(length_of(rest)),
        [b'v', b'a', b'r', b'c', b'h', b'a', b'r', b'(', rest @ ..] => varchar_of(length_of(rest)),
        _ => None,
    }
}

fn char_of(length: Option<u16>) -> Option<ColumnType>
    ensures { result ≡ option_map ColumnType.Char length }
{
    match length {
        Some(length) => Some(ColumnType::Char { length }),
        None => None,
    }
}

fn varchar_of(length: Option<u16>) -> Option<ColumnType>
    ensures { result ≡ option_map ColumnType.VarChar length }
{
    match length {
        Some(length) => Some(ColumnType::VarChar { length }),
        None => None,
    }
}

/// A number before a closing parenthesis.
fn length_of(text: &[u8]) -> Option<u16>
    ensures { (length : ℕ) → length < 2 ^ 16 → text.now ≡ decimal length ++ codes ")" → result ≡ Some length }
{
    match text.strip_suffix(b")") {
        Some(digits) => number_of(digits),
        None => None,
    }
}

fn number_of(digits: &[u8]) -> Option<u16>
    ensures { (length : ℕ) → length < 2 ^ 16 → digits.now ≡ decimal length → result ≡ Some length }
{
    match std::str::from_utf8(digits) {
        Ok(digits) => digits.parse::<u16>().ok(),
        Err(_) => None,
    }
}

/// A type without a length.
fn plain_type(text: &str) -> Option<ColumnType>
    ensures { result ≡ plain_type text.now }
{
    match text {
        "tinyint" => Some(integer(IntSize::Tiny, false)),
        "smallint" => Some(integer(IntSize::Small, false)),
        "mediumint" => Some(integer(IntSize::Medium, false)),
        "int" => Some(integer(IntSize::Normal, false)),
        "bigint" => Some(integer(IntSize::Big, false)),
        _ => other_type(text),
    }
}

fn other_type(text: &str) -> Option<ColumnType>
    ensures { result ≡ other_type text.now }
{
    match text {
        "tinyint(1)" => Some(ColumnType::Bool),
        "date" => Some(ColumnType::Date),
        "datetime" => Some(ColumnType::DateTime),
        _ => unsigned_type(text),
    }
}

fn unsigned_type(text: &str) -> Option<ColumnType>
    ensures { result ≡ unsigned_type text.now }
{
    match text {
        "tinyint unsigned" => Some(integer(IntSize::Tiny, true)),
        "smallint unsigned" => Some(integer(IntSize::Small, true)),
        "mediumint unsigned" => Some(integer(IntSize::Medium, true)),
        "int unsigned" => Some(integer(IntSize::Normal, true)),
        "bigint unsigned" => Some(integer(IntSize::Big, true)),
        _ => None,
    }
}

fn integer(size: IntSize, unsigned: bool) -> ColumnType
    ensures { result ≡ ColumnType.Int size unsigned }
{
    ColumnType::Int { size, unsigned }
}
