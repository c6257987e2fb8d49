ghost use Rattle.std.specs.Prelude.{◌≡◌, ◌+◌, ◌-◌, ◌*◌, ◌^◌, min, nat_le};
ghost use Rattle.sql_grammar.specs.Lexemes.{value_from};

/// The number with one more decimal digit, or the greatest number.
fn with_digit(number: u128, digit: u8) -> u128
    ensures { result ≡ min (10 * number + (digit - 48)) (2 ^ 128 - 1) }
{
    let value = u128::from(digit.saturating_sub(b'0'));
    number.saturating_mul(10).saturating_add(value)
}

/// The number that decimal digits write, or 2^128 - 1 for every wider one.
pub fn number_of(digits: &[u8]) -> u128
    ensures { result ≡ min (value_from 0 digits.now) (2 ^ 128 - 1) }
{
    let mut number: u128 = 0;
    'digits: for digit in digits {
        number = with_digit(number, *digit);
    }
    number
}

/// Whether the digits write 255 at most.
pub fn is_width(digits: &[u8]) -> bool
    ensures { result ≡ nat_le (value_from 0 digits.now) 255 }
{
    number_of(digits) <= 255
}
