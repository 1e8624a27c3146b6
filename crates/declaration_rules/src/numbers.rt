//! The numbers that attributes are.
ghost use Rattle.std.specs.Prelude.{◌≡◌, ◌+◌, ◌*◌, ◌<◌, ◌^◌, option_and_then};
ghost use Rattle.slicc_plan.specs.Prelude.{digit_value, number_in_range, number_value, spelled_number};
ghost use Rattle.declaration_rules.specs.Numbers.{base_of, digits_in, is_right_in, read_from};

use declared_types::after_prefix;
use slicc_ast::tree::PairValue;

/// What the digits of a number count in.
#[derive(Clone, Copy)]
enum Base {
    Decimal,
    Hexadecimal,
}

// No number of SLICC is as large as this.
const LIMIT: u128 = 1 << 63;

fn is_right(base: Base, c: u8) -> bool
    ensures { result ≡ is_right_in base c }
{
    match base {
        Base::Decimal => c >= 48 && c <= 57,
        Base::Hexadecimal => c >= 48 && c <= 57 || c >= 65 && c <= 70 || c >= 97 && c <= 102,
    }
}

fn digit_value(c: u8) -> u8
    ensures { result ≡ digit_value c }
{
    if c <= 57 {
        c.saturating_sub(48)
    } else if c <= 70 {
        c - 55
    } else {
        c.saturating_sub(87)
    }
}

// The number with one more digit.
fn with_digit(base: Base, n: u128, c: u8) -> u128
    requires { n < 2 ^ 63 }
    ensures { result ≡ base_of base * n + digit_value c }
{
    let digit = digit_value(c) as u128;
    match base {
        Base::Decimal => 10 * n + digit,
        Base::Hexadecimal => 16 * n + digit,
    }
}

fn read_digits(base: Base, digits: &[u8]) -> Option<u64>
    ensures { result ≡ option_and_then number_in_range (read_from base 0 digits.now) }
{
    let mut n: u128 = 0;
    for c in digits {
        if !is_right(base, *c) {
            return None;
        }
        n = with_digit(base, n, *c);
        if n >= LIMIT {
            return None;
        }
    }
    Some(n as u64)
}

// The number that digits stand for, where there are any.
fn some_digits(base: Base, digits: &[u8]) -> Option<u64>
    ensures { result ≡ option_and_then number_in_range (digits_in base digits.now) }
{
    if digits.len() == 0 {
        return None;
    }
    read_digits(base, digits)
}

fn spelled_number(text: &[u8]) -> Option<u64>
    ensures { result ≡ option_and_then number_in_range (spelled_number text.now) }
{
    match after_prefix(text, b"0x") {
        Some(digits) => some_digits(Base::Hexadecimal, digits),
        None => some_digits(Base::Decimal, text),
    }
}

/// The number that an attribute's value is, where it is one.
pub fn number_value(value: &PairValue) -> Option<u64>
    ensures { result ≡ number_value value.now }
{
    match value {
        PairValue::Quoted(text) => spelled_number(text),
        PairValue::Number(n) => u64::try_from(*n).ok(),
        PairValue::Name(_) => None,
    }
}
