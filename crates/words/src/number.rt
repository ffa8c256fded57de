// Numbers as text: whole numbers, signed ones, and floats by the digits of their bits.
ghost use Rattle.std.specs.Prelude.{◌≡◌};
ghost use Rattle.words.specs.Numbers.{digit_in, decimal_digit, with_digit, whole_of, symbol_of, positive_of, negated_of, signed_of, float_of};

use std::num::f64_from_bits_with_nan;

// The value of a digit, `0` to `9` and then `a` to `f`.
#[tactic(auto, unfolding(crate::specs::Numbers::digit_of))]
pub fn digit(byte: u8) -> Option<u64>
    ensures { result ≡ digit_in byte }
{
    match byte {
        b'0'..=b'9' => Some((byte - b'0') as u64),
        b'a'..=b'f' => Some((byte - b'a' + 10) as u64),
        _ => None,
    }
}

// The value of a decimal digit.
pub fn decimal_digit(byte: u8) -> Option<u64>
    ensures { result ≡ decimal_digit byte }
{
    digit(byte).filter(|d| *d < 10)
}

// The number with one more decimal digit, where it fits.
fn with_digit(n: u64, byte: u8) -> Option<u64>
    ensures { result ≡ with_digit n byte }
{
    let d = decimal_digit(byte)?;
    n.checked_mul(10)?.checked_add(d)
}

// 1 to 20 decimal digits.
pub fn whole(s: &[u8]) -> Option<u64>
    ensures { result ≡ whole_of s.now }
{
    if s.is_empty() || s.len() > 20 {
        return None;
    }
    let mut n: u64 = 0;
    for b in s {
        n = with_digit(n, *b)?;
    }
    Some(n)
}

// A whole number that 32 bits hold.
#[tactic(auto, unfolding(crate::specs::Numbers::symbol_of))]
pub fn symbol(s: &[u8]) -> Option<u32>
    ensures { result ≡ symbol_of s.now }
{
    u32::try_from(whole(s)?).ok()
}

pub fn positive(x: Option<u64>) -> Option<i64>
    ensures { result ≡ positive_of x }
{
    i64::try_from(x?).ok()
}

pub fn negated(x: Option<u64>) -> Option<i64>
    ensures { result ≡ negated_of x }
{
    0i64.checked_sub_unsigned(x?)
}

// A whole number, with a `-` before it or not, that 64 bits hold with its sign.
#[tactic(auto, unfolding(crate::specs::Numbers::signed_of))]
pub fn signed(s: &[u8]) -> Option<i64>
    ensures { result ≡ signed_of s.now }
{
    match s {
        [b'-', rest @ ..] => negated(whole(rest)),
        _ => positive(whole(s)),
    }
}

// 16 lower-case hexadecimal digits: the bits. Every pattern of a NaN is the one NaN.
pub fn float(s: &[u8]) -> Option<f64>
    ensures { result ≡ float_of s.now }
{
    if s.len() != 16 {
        return None;
    }
    let mut n: u64 = 0;
    for b in s {
        n = n * 16 + digit(*b)?;
    }
    Some(f64_from_bits_with_nan(n))
}
