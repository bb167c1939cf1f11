//! Numbers: the value and the type of an integer constant.

ghost use Rattle.std.specs.Prelude.{◌≡◌, ℕ, ◌+◌, ◌*◌, ◌≤◌, ◌<◌, ◌==◌, nat_lt, length, MatchOption};
ghost use Rattle.std.specs.List.{find, prefix_len};
ghost use Rattle.std.specs.Char.{is_digit};
ghost use Rattle.c_lexer.specs.Number.{value_of, digits_of, fitting, suffix_of, is_u, is_l, is_ll, types_of, number_with_type, number_in, number_of};
ghost use Rattle.filc_num.specs.CIntTypes.{int_type_of};
ghost use Rattle.filc_num.specs.Integers.{limit_of};

use crate::classes::digit_value;
use filc_num::CIntType;

/// An integer constant: its value, which is never negative, and the first of its types that holds it.
#[derive(Clone, Copy, Debug, PartialEq, Eq)]
pub struct Number {
    pub value: u64,
    pub c_type: CIntType,
}

/// The suffix of an integer constant, in small letters and with the u first.
#[derive(Clone, Copy)]
pub enum Suffix {
    Plain,
    U,
    L,
    Ul,
    Ll,
    Ull,
}

/// The digits at the front of some bytes: what they write, where 64 bits hold it, and how many
/// they are.
#[derive(Clone, Copy)]
pub struct Digits {
    pub value: Option<u64>,
    pub count: usize,
}

/// The number that a token's text is: the value and the type, or None where the text is no integer
/// constant or no type holds it.
#[tactic(auto, unfolding(crate::specs::Number::number_of))]
pub fn read_number(text: &[u8]) -> Option<Number>
    ensures { result ≡ number_of text.now }
{
    if text.starts_with(b"0x") || text.starts_with(b"0X") {
        number_in(16, &text[2..])
    } else if text.starts_with(b"0") {
        number_in(8, text)
    } else {
        number_in(10, text)
    }
}

fn number_in(base: u64, text: &[u8]) -> Option<Number>
    requires low { 1 ≤ base }
    requires high { base ≤ 16 }
    ensures { result ≡ number_in base text.now }
{
    let digits = read_digits(base, text);
    if digits.count == 0 {
        return None;
    }
    let suffix = read_suffix(&text[digits.count..])?;
    let value = digits.value?;
    number_with_type(value, base == 10, suffix)
}

/// Reads the digits of the base at the front.
pub fn read_digits(base: u64, text: &[u8]) -> Digits
    requires low { 1 ≤ base }
    requires high { base ≤ 16 }
    ensures count { result.count ≡ prefix_len (λ b. is_digit b base) text.now }
    ensures within { result.count ≤ length text.now }
    ensures value { result.value ≡ fitting (value_of base 0 (digits_of base text.now)) }
{
    let mut value = Some(0);
    for (count, b) in text.iter().enumerate() {
        let digit = u64::from(digit_value(*b));
        if digit >= base {
            return Digits { value, count };
        }
        value = with_digit(value, base, digit);
    }
    let count = text.len();
    Digits { value, count }
}

/// The value with one more digit, where 64 bits hold it.
fn with_digit(value: Option<u64>, base: u64, digit: u64) -> Option<u64>
    ensures { MatchOption value (result ≡ None) (λ value. result ≡ fitting (value * base + digit)) }
{
    value?.checked_mul(base)?.checked_add(digit)
}

fn is_u(b: u8) -> bool
    ensures { result ≡ is_u b }
{
    b == b'u' || b == b'U'
}

fn is_l(b: u8) -> bool
    ensures { result ≡ is_l b }
{
    b == b'l' || b == b'L'
}

fn is_ll(a: u8, b: u8) -> bool
    ensures { result ≡ is_ll a b }
{
    is_l(a) && a == b
}

fn read_suffix(text: &[u8]) -> Option<Suffix>
    ensures { result ≡ suffix_of text.now }
{
    match *text {
        [] => Some(Suffix::Plain),
        [a] if is_u(a) => Some(Suffix::U),
        [a] if is_l(a) => Some(Suffix::L),
        [a, b] if is_u(a) && is_l(b) || is_l(a) && is_u(b) => Some(Suffix::Ul),
        [a, b] if is_ll(a, b) => Some(Suffix::Ll),
        [a, b, c] if is_u(a) && is_ll(b, c) || is_ll(a, b) && is_u(c) => Some(Suffix::Ull),
        _ => None,
    }
}

/// The types that a constant may have, the first choice first.
fn types(decimal: bool, suffix: Suffix) -> &'static [CIntType]
    ensures { result.now ≡ types_of decimal suffix }
{
    match suffix {
        Suffix::Plain if decimal => &[CIntType::Int, CIntType::Long],
        Suffix::Plain => &[
            CIntType::Int,
            CIntType::UnsignedInt,
            CIntType::Long,
            CIntType::UnsignedLong,
        ],
        Suffix::U => &[CIntType::UnsignedInt, CIntType::UnsignedLong],
        Suffix::L if decimal => &[CIntType::Long],
        Suffix::L => &[CIntType::Long, CIntType::UnsignedLong],
        Suffix::Ul => &[CIntType::UnsignedLong],
        Suffix::Ll if decimal => &[CIntType::LongLong],
        Suffix::Ll => &[CIntType::LongLong, CIntType::UnsignedLongLong],
        Suffix::Ull => &[CIntType::UnsignedLongLong],
    }
}

fn first_type(value: u64, types: &[CIntType]) -> Option<CIntType>
    ensures { result ≡ find
        (λ c_type. nat_lt value (limit_of (int_type_of c_type))) types.now }
{
    types
        .iter()
        .copied()
        .find(|c_type| c_type.int_type().holds(value))
}

fn number_with_type(value: u64, decimal: bool, suffix: Suffix) -> Option<Number>
    ensures { result ≡ number_with_type value decimal suffix }
{
    let c_type = first_type(value, types(decimal, suffix))?;
    Some(Number { value, c_type })
}
