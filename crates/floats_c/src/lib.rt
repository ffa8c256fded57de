// `floor` and `ceil` for C: the archive that `tools/compare-libm.sh` links beside libm.
#![tactic(auto)]

ghost use Rattle.std.specs.Prelude.{◌≡◌};
ghost use Rattle.floats.specs.Whole.{floor_of, ceil_of};

#[unsafe(no_mangle)]
pub extern "C" fn rt_floor(x: f64) -> f64
    ensures { result ≡ floor_of x }
{
    floats::floor(x)
}

#[unsafe(no_mangle)]
pub extern "C" fn rt_ceil(x: f64) -> f64
    ensures { result ≡ ceil_of x }
{
    floats::ceil(x)
}
