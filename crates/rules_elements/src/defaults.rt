// Default values as columns keep them (MySQL 8.0 Reference Manual, 11.6).
ghost use Rattle.std.specs.Prelude.{◌≡◌, ◌<◌, ◌^◌, ◌==◌, IfOk, nat_le, true};
ghost use Rattle.std.specs.List.{list_all, count_by};
ghost use Rattle.std.specs.Char.{is_ascii_digit};
ghost use Rattle.sql_types.specs.Numbers.{is_number_text, behind_sign};
ghost use Rattle.dd_definitions.specs.Defaults.{height, depth, value_behind, begins_with_zero, begins_character, is_short_text};
ghost use Rattle.rules_elements.specs.Defaults.{is_negative, without_zeros, signed_text, decimal_text, is_in_range, kept_number, kept_text, kept_by};

use dd_names::Text;
use sql_types::{ColumnType, IntSize};
use std::alloc::{AllocError, Global};

/// The text as a column of the type keeps it, or None where it doesn't.
#[tactic(auto, unfolding(crate::specs::Defaults::kept_by))]
pub(crate) fn kept_by(
    alloc: Global,
    kind: ColumnType,
    text: &str,
) -> Result<Option<Text>, AllocError>
    ensures { IfOk result (λ kept. kept ≡ kept_by kind text.now) }
{
    match kind {
        ColumnType::Int { size, unsigned } => {
            kept_number(alloc, depth(size, unsigned), height(size, unsigned), text)
        }
        ColumnType::Bool => kept_number(
            alloc,
            depth(IntSize::Tiny, false),
            height(IntSize::Tiny, false),
            text,
        ),
        ColumnType::Char { length } => kept_text(alloc, length, text),
        ColumnType::VarChar { length } => kept_text(alloc, length, text),
        ColumnType::Date => Ok(None),
        ColumnType::DateTime => Ok(None),
    }
}

#[tactic(auto, unfolding(crate::specs::Defaults::kept_number))]
fn kept_number(
    alloc: Global,
    below: u64,
    above: u64,
    text: &str,
) -> Result<Option<Text>, AllocError>
    ensures { IfOk result (λ kept. kept ≡ kept_number below above text.now) }
{
    if is_in_range(below, above, text.as_bytes()) {
        Ok(Some(decimal_text(alloc, text)?))
    } else {
        Ok(None)
    }
}

#[tactic(auto, unfolding(crate::specs::Defaults::kept_text))]
fn kept_text(alloc: Global, most: u16, text: &str) -> Result<Option<Text>, AllocError>
    ensures { IfOk result (λ kept. kept ≡ kept_text most text.now) }
{
    if is_short_text(most, text.as_bytes()) {
        Ok(Some(Text::of(alloc, text)?))
    } else {
        Ok(None)
    }
}

/// A number without zeros in front, `+` or `-0`; what isn't a number stays as it is.
#[tactic(auto, unfolding(crate::specs::Defaults::decimal_text))]
pub(crate) fn decimal_text(alloc: Global, text: &str) -> Result<Text, AllocError>
    ensures { IfOk result (λ decimal. decimal ≡ decimal_text text.now) }
{
    let bytes = text.as_bytes();
    if !is_number_text(bytes) {
        return Text::of(alloc, text);
    }
    signed_text(alloc, is_negative(bytes), kept_digits(bytes))
}

fn signed_text(alloc: Global, negative: bool, digits: &str) -> Result<Text, AllocError>
    ensures { IfOk result (λ text. text ≡ signed_text negative digits.now) }
{
    if negative && !begins_with_zero(digits.as_bytes()) {
        let mut text = Text::of(alloc, "-")?;
        text.push_str(digits)?;
        return Ok(text);
    }
    Text::of(alloc, digits)
}

/// A number's digits without zeros in front.
#[tactic(auto, using(crate::proofs::Digits::kept_digits_are_text))]
fn kept_digits(text: &[u8]) -> &str
    requires { is_number_text text.now ≡ true }
    ensures { result.now ≡ without_zeros (behind_sign text.now) }
{
    match str::from_utf8(without_zeros(behind_sign(text))) {
        Ok(digits) => digits,
        Err(_) => unreachable!(),
    }
}

fn without_zeros(digits: &[u8]) -> &[u8]
    ensures { result.now ≡ without_zeros digits.now }
{
    let mut rest = digits;
    'zeros: while let [digit, others @ ..] = rest {
        if *digit != b'0' {
            return rest;
        }
        rest = others;
    }
    b"0"
}

#[tactic(auto, unfolding(crate::specs::Defaults::is_in_range))]
fn is_in_range(below: u64, above: u64, text: &[u8]) -> bool
    ensures { result ≡ is_in_range below above text.now }
{
    let most = if is_negative(text) { below } else { above };
    is_number_text(text) && is_at_most(most, behind_sign(text))
}

fn is_at_most(most: u64, digits: &[u8]) -> bool
    ensures { result ≡ nat_le (value_behind 0 digits.now) most }
{
    let most = u128::from(most);
    let mut value = 0u128;
    'digits: for digit in digits {
        value = 10 * value + u128::from(digit.saturating_sub(b'0'));
        if value > most {
            return false;
        }
    }
    true
}

fn is_number_text(text: &[u8]) -> bool
    ensures { result ≡ is_number_text text.now }
{
    let digits = behind_sign(text);
    !digits.is_empty() && are_digits(digits)
}

fn are_digits(text: &[u8]) -> bool
    ensures { result ≡ list_all is_ascii_digit text.now }
{
    text.iter().all(|c| c.is_ascii_digit())
}

fn behind_sign(text: &[u8]) -> &[u8]
    ensures { result.now ≡ behind_sign text.now }
{
    match text {
        [b'+' | b'-', digits @ ..] => digits,
        _ => text,
    }
}

fn is_negative(text: &[u8]) -> bool
    ensures { result ≡ is_negative text.now }
{
    match text {
        [] => false,
        [c, ..] => *c == b'-',
    }
}

fn begins_with_zero(text: &[u8]) -> bool
    ensures { result ≡ begins_with_zero text.now }
{
    match text {
        [] => false,
        [digit, ..] => *digit == b'0',
    }
}

#[tactic(auto, unfolding(dd_definitions::specs::Defaults::is_short_text))]
fn is_short_text(most: u16, text: &[u8]) -> bool
    ensures { result ≡ is_short_text most text.now }
{
    character_count(text) <= usize::from(most)
}

fn character_count(text: &[u8]) -> usize
    ensures { result ≡ count_by begins_character text.now }
{
    text.iter().filter(|byte| begins_character(**byte)).count()
}

fn begins_character(byte: u8) -> bool
    ensures { result ≡ begins_character byte }
{
    !(128 <= byte && byte <= 191)
}

fn height(size: IntSize, unsigned: bool) -> u64
    ensures { result ≡ height size unsigned }
{
    match (size, unsigned) {
        (IntSize::Tiny, false) => 0x7f,
        (IntSize::Small, false) => 0x7fff,
        (IntSize::Medium, false) => 0x7f_ffff,
        (IntSize::Normal, false) => 0x7fff_ffff,
        (IntSize::Big, false) => 0x7fff_ffff_ffff_ffff,
        (IntSize::Tiny, true) => 0xff,
        (IntSize::Small, true) => 0xffff,
        (IntSize::Medium, true) => 0xff_ffff,
        (IntSize::Normal, true) => 0xffff_ffff,
        (IntSize::Big, true) => 0xffff_ffff_ffff_ffff,
    }
}

fn depth(size: IntSize, unsigned: bool) -> u64
    ensures { result ≡ depth size unsigned }
{
    match (size, unsigned) {
        (IntSize::Tiny, false) => 0x80,
        (IntSize::Small, false) => 0x8000,
        (IntSize::Medium, false) => 0x80_0000,
        (IntSize::Normal, false) => 0x8000_0000,
        (IntSize::Big, false) => 0x8000_0000_0000_0000,
        (_, true) => 0,
    }
}
