// The numbers in the names that constraints are given (MySQL 8.0 Reference Manual, 13.1.20.5).
ghost use Rattle.std.specs.Prelude.{◌≡◌, ◌+◌, ◌++◌, ◌<◌, ◌^◌, max, true, IfOk};
ghost use Rattle.std.specs.List.{list_all};
ghost use Rattle.std.specs.Option.{option_copied};
ghost use Rattle.std.specs.Char.{is_ascii_digit};
ghost use Rattle.std.specs.Fmt.{decimal};
ghost use Rattle.dd_definitions.specs.Defaults.{value_behind, begins_with_zero};
ghost use Rattle.dd_definitions.specs.declared.parts.TableParts.{TableParts as Parts};
ghost use Rattle.dd_catalog.specs.WalkLaws.{Look};
ghost use Rattle.dd_catalog.specs.Walks.{run};
ghost use Rattle.dd_catalog.specs.Follow.{Follows};
ghost use Rattle.rules_create.specs.Tables.{is_number, number_of, constraint_name};
ghost use Rattle.rules_create.specs.Drafts.{keys_in, AreOrdered, with_keys};

use crate::ordered_keys::OrderedKeys;
use dd_catalog::Stop;
use dd_names::{Name, Text, TryCopy};
use rules_elements::made_name;
use std::alloc::{AllocError, Global};

/// The name that is given, or `<table>_ibfk_<n>`, where n is one more than the greatest. Above 64 characters: 1059.
#[tactic(auto, unfolding(crate::specs::Tables::constraint_name))]
pub(crate) fn constraint_name(
    alloc: Global,
    keys: &OrderedKeys,
    given: &Option<Name>,
) -> Result<Name, Stop>
    requires { keys.now.greatest < 10 ^ 38 }
    ensures { (look : Look) (parts : Parts) → AreOrdered keys.now parts.name.name → Follows (λ name. name) result (run look (constraint_name (with_keys parts (keys_in keys.now)) given.now)) }
{
    match given {
        Some(name) => Ok(name.copy()?),
        None => {
            let made = keys.next_name(alloc)?;
            made_name(alloc, made.as_str())
        }
    }
}

/// The front, and behind it the number in decimal.
pub fn with_number(alloc: Global, front: &str, number: u128) -> Result<Text, AllocError>
    ensures { IfOk result (λ name. name ≡ front.now ++ decimal number) }
{
    Ok(Text::from_string(format!(in alloc; "{front}{number}")?))
}

/// The greater of two numbers.
pub fn greater(a: u128, b: u128) -> u128
    ensures { result ≡ max a b }
{
    if a < b { b } else { a }
}

/// The number behind the front, and 0 where there is none.
pub fn number_of(text: Option<&str>) -> u128
    ensures value { result ≡ number_of (option_copied text.entry) }
    ensures small { result < 10 ^ 38 }
{
    match text {
        None => 0,
        Some(text) => {
            let text = text.as_bytes();
            if is_number(text) { value_of(text) } else { 0 }
        }
    }
}

fn value_of(digits: &[u8]) -> u128
    requires { is_number digits.now ≡ true }
    ensures value { result ≡ value_behind 0 digits.now }
    ensures small { result < 10 ^ 38 }
{
    let mut value = 0u128;
    'digits: for digit in digits {
        value = 10 * value + u128::from(digit.saturating_sub(b'0'));
    }
    value
}

/// Whether these are one to 38 decimal digits without a zero in front.
fn is_number(text: &[u8]) -> bool
    ensures { result ≡ is_number text.now }
{
    1 <= text.len() && text.len() <= 38 && are_digits(text) && !begins_with_zero(text)
}

fn are_digits(text: &[u8]) -> bool
    ensures { result ≡ list_all is_ascii_digit text.now }
{
    text.iter().all(|c| c.is_ascii_digit())
}

fn begins_with_zero(text: &[u8]) -> bool
    ensures { result ≡ begins_with_zero text.now }
{
    match text {
        [] => false,
        [digit, ..] => *digit == b'0',
    }
}
