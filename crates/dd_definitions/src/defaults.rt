ghost use Rattle.std.specs.Prelude.{◌≡◌, ◌<◌, ◌^◌, ◌==◌, nat_le};
ghost use Rattle.std.specs.List.{count_by};
ghost use Rattle.dd_definitions.specs.Defaults.{height, depth, value_behind, are_digits, begins_with_zero, is_positive, is_zero, is_integer_text, begins_character, is_short_text, fits, is_fitting_default};

use dd_names::{Text, are_digits};
use sql_types::{ColumnType, IntSize};

/// Whether a default, if there is one, is kept as it stands by a column of the type (MySQL 8.0 Reference Manual, 11.1 and
/// 11.6).
pub(crate) fn is_fitting_default(kind: ColumnType, default: &Option<Text>) -> bool
    ensures { result ≡ is_fitting_default kind default.now }
{
    match default {
        None => true,
        Some(text) => fits(kind, text.as_str().as_bytes()),
    }
}

#[tactic(auto, unfolding(crate::specs::Defaults::fits))]
fn fits(kind: ColumnType, text: &[u8]) -> bool
    ensures { result ≡ fits kind text.now }
{
    match kind {
        ColumnType::Int { size, unsigned } => {
            is_integer_text(depth(size, unsigned), height(size, unsigned), text)
        }
        ColumnType::Bool => is_integer_text(
            depth(IntSize::Tiny, false),
            height(IntSize::Tiny, false),
            text,
        ),
        ColumnType::Char { length } => is_short_text(length, text),
        ColumnType::VarChar { length } => is_short_text(length, text),
        ColumnType::Date => false,
        ColumnType::DateTime => false,
    }
}

/// The greatest number of an integer type (MySQL 8.0 Reference Manual, 11.1.2).
pub fn height(size: IntSize, unsigned: bool) -> u64
    ensures { result ≡ height size unsigned }
{
    match (size, unsigned) {
        (IntSize::Tiny, false) => 127,
        (IntSize::Small, false) => 32_767,
        (IntSize::Medium, false) => 8_388_607,
        (IntSize::Normal, false) => 2_147_483_647,
        (IntSize::Big, false) => 9_223_372_036_854_775_807,
        (IntSize::Tiny, true) => 255,
        (IntSize::Small, true) => 65_535,
        (IntSize::Medium, true) => 16_777_215,
        (IntSize::Normal, true) => 4_294_967_295,
        (IntSize::Big, true) => 18_446_744_073_709_551_615,
    }
}

/// How far the least number of an integer type is below 0 (MySQL 8.0 Reference Manual, 11.1.2).
pub fn depth(size: IntSize, unsigned: bool) -> u64
    ensures { result ≡ depth size unsigned }
{
    match (size, unsigned) {
        (IntSize::Tiny, false) => 128,
        (IntSize::Small, false) => 32_768,
        (IntSize::Medium, false) => 8_388_608,
        (IntSize::Normal, false) => 2_147_483_648,
        (IntSize::Big, false) => 9_223_372_036_854_775_808,
        (_, true) => 0,
    }
}

#[tactic(auto, unfolding(crate::specs::Defaults::is_integer_text))]
fn is_integer_text(below: u64, above: u64, text: &[u8]) -> bool
    ensures { result ≡ is_integer_text below above text.now }
{
    match text {
        [] => false,
        [b'-', digits @ ..] => is_positive(below, digits),
        _ => is_zero(text) || is_positive(above, text),
    }
}

fn is_zero(text: &[u8]) -> bool
    ensures { result ≡ is_zero text.now }
{
    begins_with_zero(text) && text.len() <= 1
}

#[tactic(auto, unfolding(crate::specs::Defaults::is_positive))]
fn is_positive(most: u64, digits: &[u8]) -> bool
    ensures { result ≡ is_positive most digits.now }
{
    is_number(digits) && !begins_with_zero(digits) && is_at_most(most, digits)
}

fn is_number(text: &[u8]) -> bool
    ensures { result ≡ are_digits text.now }
{
    1 <= text.len() && are_digits(text)
}

/// Whether the first byte is `0`.
pub fn begins_with_zero(text: &[u8]) -> bool
    ensures { result ≡ begins_with_zero text.now }
{
    match text {
        [] => false,
        [digit, ..] => *digit == b'0',
    }
}

/// Whether the number that decimal digits stand for is at most `most`.
pub fn is_at_most(most: u64, digits: &[u8]) -> bool
    ensures { result ≡ nat_le (value_behind 0 digits.now) most }
{
    let most = u128::from(most);
    let mut value = 0u128;
    for digit in digits {
        value = 10 * value + u128::from(digit.saturating_sub(b'0'));
        if value > most {
            return false;
        }
    }
    true
}

/// Whether UTF-8 text has at most so many characters.
#[tactic(auto, unfolding(crate::specs::Defaults::is_short_text))]
pub fn is_short_text(most: u16, text: &[u8]) -> bool
    ensures { result ≡ is_short_text most text.now }
{
    character_count(text) <= usize::from(most)
}

fn character_count(text: &[u8]) -> usize
    ensures { result ≡ count_by begins_character text.now }
{
    text.iter().filter(|byte| begins_character(**byte)).count()
}

fn begins_character(byte: u8) -> bool
    ensures { result ≡ begins_character byte }
{
    !(128 <= byte && byte <= 191)
}
