// Rounding an `f64` to a whole number, and the test whether it is a number at all. Each function
// takes every `f64` and refuses none. From 2^52 on every `f64` is whole. Below that the whole part
// is a `u64`, and so is one more.
#![tactic(auto)]

ghost use Rattle.std.specs.Prelude.{◌≡◌};
ghost use Rattle.std.specs.Float.Ieee.Scale as Scale;
ghost use Rattle.floats.specs.Whole.{floor_of, ceil_of};

pub mod lot;

use crate::lot::{whole_over, whole_under};

// The greatest whole number not above x.
pub fn floor(x: f64) -> f64
    ensures { result ≡ floor_of x }
{
    if x > 0.0 {
        if x < 4503599627370496.0 {
            return whole_under(x) as f64;
        }
        return x;
    }
    if x < 0.0 {
        if x > -4503599627370496.0 {
            return -(whole_over(-x) as f64);
        }
        return x;
    }
    x
}

// The least whole number not below x.
pub fn ceil(x: f64) -> f64
    ensures { result ≡ ceil_of x }
{
    -floor(-x)
}

// Whether x is neither an infinity nor a NaN. An infinity less itself is a NaN, which equals nothing.
pub fn finite(x: f64) -> bool
    ensures { result ≡ Scale.finite x }
{
    x - x == 0.0
}
