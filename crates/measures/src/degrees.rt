// Degrees: whether they are in range, and how many ticks they are.
ghost use Rattle.std.specs.Prelude.{◌≡◌, ℕ, ◌*◌, ◌^◌, ◌<◌, T, false, pos, neg_ℤ, if◌then◌else◌, from_bits};
ghost use Rattle.std.specs.Float.Ieee.{neg};
ghost use Rattle.std.specs.Float.{binary64, fin};
ghost use Rattle.measures.specs.Degrees.{within, in_degrees, tick_of};

use super::steps;

// Whether x is finite and from -most to most, for a most of n × 2^k.
pub fn within(x: f64, most: f64) -> bool
    ensures { (n k : ℕ) → most ≡ fin false n (pos k) → 0 < n → result ≡ within (n * 2 ^ k) x }
{
    x >= -most && x <= most
}

// Question 4: are both degrees finite, lat -90 to 90, lon -180 to 180? C hands the two over by themselves, and 01's site and a
// position hold them flat: a type of both would be put together and taken apart at each of these (a).
pub fn in_degrees(lat: f64, lon: f64) -> bool
    ensures { result ≡ in_degrees lat lon }
{
    within(lat, 90.0) && within(lon, 180.0)
}

// The same of the bits of two floats, with no float made: of the patterns of one sign the order is that of the numbers, and a NaN's stand behind them all.
// Every call asks it of each row with a site, and with floats it took 3.6 ns in place of 2.3 (b).
pub fn bits_in_degrees(lat: u64, lon: u64) -> bool
    ensures { result ≡ in_degrees (from_bits binary64 lat) (from_bits binary64 lon) }
{
    lat % (1 << 63) <= 0x4056_8000_0000_0000 && lon % (1 << 63) <= 0x4066_8000_0000_0000
}

// x with its sign turned where it is negative. `f64::abs` tests for a zero too: three instructions more for each of four degrees (b).
fn size(x: f64, minus: bool) -> f64
    ensures { result ≡ (if minus then neg x else x) }
{
    if minus { -x } else { x }
}

// n with a minus sign where `minus` says so. No method of a number puts a sign on (d).
fn signed(n: u64, minus: bool) -> i64
    requires { n < 2 ^ 40 }
    ensures { result ≡ (if minus then neg_ℤ (pos n) else pos n) }
{
    if minus { -(n as i64) } else { n as i64 }
}

// The nearest tick of 2^-24 degree, ties away from zero: half of the size in units of 2^-25. Both signs take one way: positions of
// mixed sign cost no more.
pub fn tick(deg: f64) -> i64
    requires { T (within 180 deg) }
    ensures { result ≡ tick_of deg }
{
    let minus = deg < 0.0;
    let n = steps::rounded_half(size(deg, minus) * 33554432.0);
    signed(n, minus)
}
