// Decimal numbers without spare zeros, and dates, read.
ghost use Rattle.std.specs.Prelude.{◌≡◌, ◌+◌, ◌*◌};
ghost use Rattle.numerals.specs.Numerals.{no_spare, decimal_in, negative_of, date_in, capped, capped_in};

use words::number;

// Is there a digit, and no zero before another one?
#[tactic(auto, unfolding(crate::specs::Numerals::no_spare))]
fn no_spare(s: &[u8]) -> bool
    ensures { result ≡ no_spare s.now }
{
    match s {
        [] => false,
        [_] => true,
        [first, ..] => *first != b'0',
    }
}

// The number with one more digit. It stops growing at 9223372036854775809, which no sign brings into
// 64 bits.
fn grown(n: u64, d: u64) -> u64
    ensures { result ≡ capped (n * 10 + d) }
{
    n.saturating_mul(10)
        .saturating_add(d)
        .min(9223372036854775809)
}

// A decimal number without spare zeros, of any length.
pub fn decimal(s: &[u8]) -> Option<u64>
    ensures { result ≡ capped_in (decimal_in s.now) }
{
    if !no_spare(s) {
        return None;
    }
    let mut n: u64 = 0;
    for b in s {
        n = grown(n, number::decimal_digit(*b)?);
    }
    Some(n)
}

// What a date says behind its minus.
fn negative(x: Option<u64>) -> Option<i64>
    ensures { result ≡ negative_of x }
{
    if x? == 0 {
        return None;
    }
    number::negated(x)
}

// A date that 64 bits hold.
#[tactic(auto, unfolding(crate::specs::Numerals::date_in))]
pub fn date(s: &[u8]) -> Option<i64>
    ensures { result ≡ date_in s.now }
{
    match s {
        [] => None,
        [b'-', rest @ ..] => negative(decimal(rest)),
        _ => number::positive(decimal(s)),
    }
}
