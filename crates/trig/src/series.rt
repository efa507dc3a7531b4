// Sine and cosine of 0 to 45 degrees, in whole numbers.
ghost use Rattle.std.specs.Prelude.{◌≡◌, ◌≤◌, ◌<◌, ◌*◌, ◌/◌, ◌^◌};
ghost use Rattle.trig.specs.Ticks.{deg};
ghost use Rattle.trig.specs.Series.{rad, term, sin_h, cos_r};

use std::ops::Mul;

const ONE: u64 = 1 << 30;

// K of 01: 64 × 2^32 × π/180, the radians of a tick in the unit 2^-62.
const K: u64 = 4797524517;

// A number of the unit 2^-30, from 0 to 1.
#[derive(Clone, Copy)]
pub struct Fraction {
    pub n: u64,
    pub ghost at_most_one: { n ≤ 2 ^ 30 },
}

// a × b div 2^30: at most a. The bound is of the product in 64 bits, of no kind of number (d).
impl Mul<Fraction> for u64 {
    type Output = u64;

    ghost can_mul = { λ a b. a ≤ 2 ^ 32 };

    ghost mul_gives = { λ a b c. (c ≡ a * b.n / 2 ^ 30) × (c ≤ a) };

    fn mul(self, b: Fraction) -> u64 {
        self * b.n / ONE
    }
}

// Of two fractions the product, rounded down.
impl Mul for Fraction {
    type Output = Fraction;

    ghost mul_gives = { λ a b c. c.n ≡ a.n * b.n / 2 ^ 30 };

    fn mul(self, b: Fraction) -> Fraction {
        Fraction { n: self.n * b }
    }
}

// r of t ticks, 0 to 45 degrees.
pub fn radians(t: u64) -> Fraction
    requires { t ≤ deg 45 }
    ensures { (result.n ≡ rad t) × (result.n ≤ 843314856) }
{
    Fraction {
        n: t * K / (1 << 32),
    }
}

// One step of either sum.
#[tactic(auto, unfolding(crate::specs::Series::term))]
pub fn one_term(z: Fraction, s: Fraction, d: u64) -> Fraction
    requires { 0 < d }
    ensures { result.n ≡ term z.n s.n d }
{
    Fraction {
        n: ONE - (z * s).n / d,
    }
}

// Of this sum and of `cos_r` the count, the divisors and the last product differ, which is all that they have: both stay (d).
pub fn sin_h(r: Fraction) -> Fraction
    ensures { result.n ≡ sin_h r.n }
{
    let z = r * r;
    let mut s = Fraction { n: ONE };
    for k in (1..7).rev() {
        s = one_term(z, s, 2 * k * (2 * k + 1));
    }
    r * s
}

pub fn cos_r(r: Fraction) -> Fraction
    ensures { result.n ≡ cos_r r.n }
{
    let z = r * r;
    let mut c = Fraction { n: ONE };
    for k in (1..8).rev() {
        c = one_term(z, c, (2 * k - 1) * (2 * k));
    }
    c
}
