// Integers: the value of their digits, as far as it has 128 bits.
ghost use Rattle.std.specs.Prelude.{◌≡◌, ◌+◌, ◌-◌, ◌*◌, ◌≤◌, ◌∷◌, length};
ghost use Rattle.sasi_model.specs.Tokens.{digits_on, digits_value, negative, negative_lexeme, positive, positive_lexeme};
ghost use Rattle.sasi_model.specs.Abbreviations.{NUMBER_LIMIT};
ghost use Rattle.sasi_cql.specs.ModelTokens.{at_most, IsLexeme};

use crate::byte::is_digit;
use crate::token::Token;
use sasi_types::Number;

// The magnitude of the least number of 128 bits.
const LIMIT: u128 = 1 << 127;

// The value with one more digit.
fn with_digit(value: u128, digit: u8) -> Option<u128>
    ensures { result ≡ at_most NUMBER_LIMIT (10 * value + (digit - 48)) }
{
    if value > LIMIT / 10 {
        return None;
    }
    let more = value * 10 + u128::from(digit.saturating_sub(b'0'));
    if more <= LIMIT { Some(more) } else { None }
}

// The value of digits, if it is not above the limit.
fn magnitude(digits: &[u8]) -> Option<u128>
    ensures { result ≡ at_most NUMBER_LIMIT (digits_value digits.now) }
{
    let mut value = 0u128;
    'digits: for digit in digits {
        let Some(more) = with_digit(value, *digit) else {
            return None;
        };
        value = more;
    }
    Some(value)
}

fn positive(digits: &[u8]) -> Number
    ensures { result ≡ positive (digits_value digits.now) }
{
    match magnitude(digits) {
        Some(value) if value < LIMIT => Number::Fits(value as i128),
        _ => Number::Wide,
    }
}

fn negative(digits: &[u8]) -> Number
    ensures { result ≡ negative (digits_value digits.now) }
{
    match magnitude(digits) {
        Some(value) if value < LIMIT => Number::Fits(-(value as i128)),
        Some(_) => Number::Fits(i128::MIN),
        None => Number::Wide,
    }
}

// The number of digits at the start.
fn digits_length(bytes: &[u8]) -> usize
    ensures value { result ≡ digits_on bytes.now }
    ensures bound { result ≤ length bytes.now }
{
    bytes.iter().take_while(|byte| is_digit(**byte)).count()
}

/// The integer at the start of a first byte and those after it.
pub fn positive_integer<'a>(first: u8, bytes: &'a [u8], behind: &'a [u8]) -> (Token<'a>, &'a [u8])
    requires { bytes.now ≡ first ∷ behind.now }
    ensures { IsLexeme (positive_lexeme first behind.now) behind.now result.0 result.1.now }
{
    let size = digits_length(behind);
    let (digits, _) = bytes.split_at(1 + size);
    let (_, left) = behind.split_at(size);
    (Token::Integer(positive(digits)), left)
}

/// The integer after a `-`.
pub fn negative_integer<'a>(behind: &'a [u8]) -> (Token<'a>, &'a [u8])
    ensures { IsLexeme (negative_lexeme behind.now) behind.now result.0 result.1.now }
{
    let (digits, left) = behind.split_at(digits_length(behind));
    (Token::Integer(negative(digits)), left)
}
