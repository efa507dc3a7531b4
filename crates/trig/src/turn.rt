// Sine and cosine of any angle from -180 to 180 degrees.
ghost use Rattle.std.specs.Prelude.{◌≡◌, ◌/◌, ◌≤◌, pos, nat_abs};
ghost use Rattle.trig.specs.Ticks.{deg};
ghost use Rattle.trig.specs.Angle.{sin_q, cos_q, sine, cosine};
ghost use Rattle.trig.specs.Value.{value};

use super::num::{Num, Sine};
use super::series;
use super::series::Fraction;

const DEG_45: u64 = 45 << 24;

const DEG_90: u64 = 90 << 24;

pub const DEG_180: u64 = 180 << 24;

// So many ticks, from -180 to 180 degrees.
#[derive(Clone, Copy)]
pub struct Angle {
    pub n: Num,
    pub ghost half_a_turn: { n.size ≤ deg 180 },
}

// 0 to 90 degrees: here a size, in `cos_q` too, and in `cos_lat` a signed angle, so no one type has all three bounds (d). No twin of `cos_q`, and so both stay (d): at 45 each of the two has its own series, so neither is the other of what is left to 90.
#[tactic(auto, unfolding(crate::specs::Angle::sin_q))]
fn sin_q(t: u64) -> Fraction
    requires { t ≤ deg 90 }
    ensures { result.n ≡ sin_q t }
{
    if t <= DEG_45 {
        series::sin_h(series::radians(t))
    } else {
        series::cos_r(series::radians(DEG_90 - t))
    }
}

// 0 to 90 degrees.
#[tactic(auto, unfolding(crate::specs::Angle::cos_q))]
fn cos_q(t: u64) -> Fraction
    requires { t ≤ deg 90 }
    ensures { result.n ≡ cos_q t }
{
    if t <= DEG_45 {
        series::cos_r(series::radians(t))
    } else {
        series::sin_h(series::radians(DEG_90 - t))
    }
}

#[tactic(auto, using(crate::proofs::Turns::sin_low, crate::proofs::Turns::sin_high))]
pub fn sin_of(t: Angle) -> Sine
    ensures { value result.n ≡ sine (value t.n) }
{
    let n = t.n.size;
    let s = sin_q(if n <= DEG_90 { n } else { DEG_180 - n });
    Sine {
        n: Num { size: s.n, ..t.n },
    }
}

#[tactic(auto, using(crate::proofs::Turns::cos_low, crate::proofs::Turns::cos_high, crate::proofs::Signs::signed_plus, crate::proofs::Signs::signed_minus))]
pub fn cos_of(t: Angle) -> Sine
    ensures { value result.n ≡ cosine (value t.n) }
{
    let n = t.n.size;
    let minus = n > DEG_90;
    let c = cos_q(if minus { DEG_180 - n } else { n });
    Sine {
        n: Num { minus, size: c.n },
    }
}

// The cosine of a latitude, which is not negative.
#[tactic(auto, using(crate::proofs::Turns::cos_low))]
pub fn cos_lat(lat: Angle) -> Fraction
    requires { lat.n.size ≤ deg 90 }
    ensures { pos result.n ≡ cosine (value lat.n) }
{
    cos_q(lat.n.size)
}

// The sine of half the size of d, which is not negative.
#[tactic(auto, using(crate::proofs::Turns::sin_halved))]
pub fn sin_half(d: Angle) -> Fraction
    ensures { pos result.n ≡ sine (pos (nat_abs (value d.n) / 2)) }
{
    sin_q(d.n.size / 2)
}
