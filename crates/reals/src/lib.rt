// An f64 of a list of calls, read from slices of bytes: by its 16 hex digits, or as a decimal number.
#![tactic(auto)]

ghost use Rattle.std.specs.Prelude.{◌≡◌, ◌-◌, ◌^◌, ◌≤◌};
ghost use Rattle.std.specs.Float.Ieee as Ieee;
ghost use Rattle.std.specs.Float.{binary64};
ghost use Rattle.reals.specs.Reals.{bits_of, point_of, decimal_of, real_of};

use fields::first_place;
use numbers::{is_minus, read_on, unsigned};

// 16 hex digits.
#[tactic(auto, unfolding(crate::specs::Reals::bits_of))]
pub fn read_bits(s: &[u8]) -> Option<u64>
    ensures { result ≡ bits_of s.now }
{
    if s.len() == 16 {
        read_on(0, s, 16, u64::MAX)
    } else {
        None
    }
}

// The float of a bit pattern; every NaN's pattern is the one NaN. The library's `from_bits` asks that it is no NaN's (d).
pub fn float_of(bits: u64) -> f64
    ensures { result ≡ Ieee.of_bits binary64 bits }
{
    if bits % 0x8000_0000_0000_0000 > 0x7ff0_0000_0000_0000 {
        f64::NAN
    } else {
        f64::from_bits(bits)
    }
}

// The float nearest to m over 10 to the places. Both are floats exactly, so only the division rounds.
fn over_tens(minus: bool, places: usize, m: u64) -> f64
    requires { (places ≤ 15) × (m ≤ 10 ^ 15 - 1) }
    ensures { result ≡ Ieee.round binary64 minus m (10 ^ places) }
{
    let tens = 10u64.pow(places as u32);
    let x = std::num::nearest_u64_to_f64(m) / std::num::nearest_u64_to_f64(tens);
    if minus { -x } else { x }
}

// A decimal number with a point, its minus sign taken off.
fn read_point(minus: bool, s: &[u8]) -> Option<f64>
    ensures { result ≡ point_of minus s.now }
{
    if s.len() > 16 {
        return None;
    }
    let p = first_place(s, b'.')?;
    let w = read_on(0, &s[..p], 10, 999999999999999)?;
    let m = read_on(w, &s[p + 1..], 10, 999999999999999)?;
    Some(over_tens(minus, s.len() - (p + 1), m))
}

// A decimal number with a point, and a minus sign or none.
#[tactic(auto, unfolding(crate::specs::Reals::decimal_of))]
fn read_decimal(s: &[u8]) -> Option<f64>
    ensures { result ≡ decimal_of s.now }
{
    read_point(is_minus(s), unsigned(s))
}

// A float by its 16 hex digits, or as a decimal number.
#[tactic(auto, unfolding(crate::specs::Reals::real_of))]
pub fn read_real(s: &[u8]) -> Option<f64>
    ensures { result ≡ real_of s.now }
{
    match read_bits(s) {
        Some(bits) => Some(float_of(bits)),
        None => read_decimal(s),
    }
}
