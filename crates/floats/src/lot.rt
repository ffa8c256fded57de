// Rounding an `f64` down to a multiple of a lot size. Below 2^52 the whole part is a `u64`; the
// multiples on either side of it are at most 2^52 + 2^32, which an `f64` holds exactly.
ghost use Rattle.std.specs.Prelude.{◌≡◌, ◌+◌, ◌*◌, ◌^◌, ◌<◌, ◌≤◌, true, false, T, pos};
ghost use Rattle.std.specs.Float.Ieee as Ieee;
ghost use Rattle.std.specs.Float.{fin};
ghost use Rattle.std.specs.Float.Ieee.Positive.{num, den};
ghost use Rattle.floats.specs.Whole.{under, over};
ghost use Rattle.floats.specs.Lots.{is_lot, lot_of, lot_shares};

use crate::floor;

// Whether a number is a lot size.
pub fn is_lot(lot: u32) -> bool
    ensures { result ≡ is_lot lot }
{
    lot >= 1 && lot <= 1000000
}

// The greatest whole number not above a, for 0 < a < 2^52. What is asked here,
// in `whole_over`, `multiple_over` and `Lot::floor`, is no type's invariant: whoever made a value of that
// type would have to prove it at the same places.
pub(crate) fn whole_under(a: f64) -> u64
    requires above_zero { T (Ieee.lt (fin false 0 (pos 0)) a) }
    requires in_range { T (Ieee.lt a (fin false 1 (pos 52))) }
    ensures { (result ≡ under (num a) (den a)) × (result < 2 ^ 52) }
{
    std::num::truncating_f64_to_u64(a)
}

// The least whole number not below a, for 0 < a < 2^52.
pub(crate) fn whole_over(a: f64) -> u64
    requires above_zero { T (Ieee.lt (fin false 0 (pos 0)) a) }
    requires in_range { T (Ieee.lt a (fin false 1 (pos 52))) }
    ensures { (result ≡ over (num a) (den a)) × (result ≤ 2 ^ 52) }
{
    let n: u64 = whole_under(a);
    if (n as f64) < a {
        return n + 1;
    }
    n
}

// A lot size above 0.
#[derive(Clone, Copy)]
struct Lot {
    size: u32,
    ghost some: { 0 < size },
}

impl Lot {
    // The greatest multiple of the lot not above n.
    fn multiple_under(self, n: u64) -> u64
        ensures { (result ≡ under n self.size * self.size) × (result ≤ n) }
    {
        n - n % self.size as u64
    }

    // The least multiple of the lot not below n: one lot more where the one not above n is less.
    fn multiple_over(self, n: u64) -> u64
        requires { n ≤ 2 ^ 52 }
        ensures { (result ≡ over n self.size * self.size) × (result ≤ n + self.size) }
    {
        let low = self.multiple_under(n);
        if low < n {
            return low + self.size as u64;
        }
        low
    }

    // The greatest multiple of the lot not above x, for -2^52 < x < 2^52. A zero keeps its sign.
    fn floor(self, x: f64) -> f64
        requires above_least { T (Ieee.lt (fin true 1 (pos 52)) x) }
        requires below_most { T (Ieee.lt x (fin false 1 (pos 52))) }
        ensures { result ≡ lot_of self.size x }
    {
        if x > 0.0 {
            return self.multiple_under(whole_under(x)) as f64;
        }
        if x < 0.0 {
            return -(self.multiple_over(whole_over(-x)) as f64);
        }
        x
    }
}

// The greatest multiple of lot not above x. A lot of 1 or 0 rounds to whole numbers and takes every
// x; for a lot above 1 a NaN and what is at least 2^52 in size are beyond what is rounded.
pub fn floor_to_lot(x: f64, lot: u32) -> Option<f64>
    ensures { result ≡ lot_shares lot x }
{
    if lot <= 1 {
        return Some(floor(x));
    }
    if x > -4503599627370496.0 && x < 4503599627370496.0 {
        Some(Lot { size: lot }.floor(x))
    } else {
        None
    }
}
