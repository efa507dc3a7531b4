// A float to the nearest whole number, and a distance in steps of 5 km.
ghost use Rattle.std.specs.Prelude.{◌≡◌, ◌+◌, ◌/◌, true, false, T, pos};
ghost use Rattle.std.specs.Float.{fin};
ghost use Rattle.std.specs.Float.Ieee.{lt, to_unsigned};
ghost use Rattle.measures.specs.Steps.{half_away, countable, off_of, distance};

// Half of y to the nearest whole number, a half up, for a y above -1 and below 2^53: y without its fraction, and one, halved. Below
// 2^53 no digit of y has to be made up, so that its digits are shifted one way alone: `truncating_f64_to_u64` of the library asks which way, four
// times a placing (b).
pub fn rounded_half(y: f64) -> u64
    requires { T (lt (fin true 1 (pos 0)) y) × T (lt y (fin false 1 (pos 53))) }
    ensures { result ≡ (to_unsigned 64 y + 1) / 2 }
{
    if y >= 1.0 {
        // y is `digits` * 2 ^ (`exponent` - 1075)
        let bits: u64 = f64::to_bits(y);
        let exponent: u64 = bits >> 52;
        let digits: u64 = (bits & 0xf_ffff_ffff_ffff) | 0x10_0000_0000_0000;
        ((digits >> (1075 - exponent)) + 1) / 2
    } else {
        0
    }
}

// y to the nearest whole number, a half up, for a y from +0 up to below 2^52. Doubling is exact, where adding a half is not.
pub fn half_up(y: f64) -> u64
    requires { T (countable y) }
    ensures { result ≡ half_away y }
{
    rounded_half(y * 2.0)
}

// A distance in steps of 5 km, halves up, at least one step.
pub fn off_km(km: f64) -> u32
    requires { T (distance km) }
    ensures { result ≡ off_of km }
{
    (half_up(km / 5.0).max(1) * 5) as u32
}
