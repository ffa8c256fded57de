// Numbers, dates and floats, spelled as text.
ghost use Rattle.std.specs.Prelude.{◌≡◌, ◌≤◌, ◌<◌, ◌+◌};
ghost use Rattle.std.specs.Float.{binary64};
ghost use Rattle.std.specs.Float.Ieee.{to_bits};
ghost use Rattle.lists.specs.Lists.{stored};
ghost use Rattle.numerals.specs.Numerals.{glyph, last_digits, places, digits, date_text, hex16, Spells};

use std::num::f64_to_bits_with_nan;

// The first `count` bytes are the text: fixed memory, since nothing is allocated here.
#[derive(Clone, Copy)]
pub struct Spelled {
    pub bytes: [u8; 20],
    pub count: usize,
}

fn glyph(d: u64) -> u8
    requires { d < 16 }
    ensures { result ≡ glyph d }
{
    if d < 10 { 48 + d as u8 } else { 87 + d as u8 }
}

// How many decimal digits n has.
fn places(n: u64) -> usize
    ensures { result ≡ places n }
{
    n.max(1).ilog10() as usize + 1
}

// The last `k` digits of n, behind the first `at` bytes: from the last one back, as the division gives
// them. An array is taken and answered, so that each text below is one literal; with a lent slice each
// would name its array and cut it.
fn spell(bytes: [u8; 20], at: usize, base: u64, n: u64, k: usize) -> [u8; 20]
    requires { (at + k ≤ 20) × (0 < base) × (base ≤ 16) }
    ensures { result ≡ stored bytes at (last_digits base k n) }
{
    let mut text = bytes;
    let mut rest = n;
    for i in (0..k).rev() {
        text[at + i] = glyph(rest % base);
        rest = rest / base;
    }
    text
}

// Decimal without spare zeros.
pub fn decimal_text(n: u64) -> Spelled
    ensures { Spells (digits n) result }
{
    let k = places(n);
    Spelled {
        bytes: spell([0; 20], 0, 10, n, k),
        count: k,
    }
}

// A date, with a minus where it is negative.
pub fn date_text(date: i64) -> Spelled
    ensures { Spells (date_text date) result }
{
    let n = date.unsigned_abs();
    if date >= 0 {
        return decimal_text(n);
    }
    let k = places(n);
    Spelled {
        bytes: spell([b'-'; 20], 1, 10, n, k),
        count: k + 1,
    }
}

// The 16 hexadecimal digits of a float's bits.
pub fn float_text(x: f64) -> Spelled
    ensures { Spells (hex16 (to_bits binary64 x)) result }
{
    Spelled {
        bytes: spell([0; 20], 0, 16, f64_to_bits_with_nan(x), 16),
        count: 16,
    }
}
