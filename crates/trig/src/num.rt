// A signed number as its sign and its size, so that every product and every bound is one of unsigned numbers.
ghost use Rattle.std.specs.Prelude.{◌≡◌, ◌+◌, ◌≤◌, ◌<◌, ◌^◌, pos, nat_abs, ◌-ℤ◌};
ghost use Rattle.trig.specs.Ticks.{scaled};
ghost use Rattle.trig.specs.Value.{value};

use super::series::Fraction;
use std::ops::{Mul, Sub};

// Zero may have either sign.
#[derive(Clone, Copy)]
pub struct Num {
    pub minus: bool,
    pub size: u64,
}

// A sine or a cosine: a number of the unit 2^-30, from -1 to 1.
#[derive(Clone, Copy)]
pub struct Sine {
    pub n: Num,
    pub ghost at_most_one: { n.size ≤ 2 ^ 30 },
}

impl From<i64> for Num {
    ghost from_gives = { λ x n. (value n ≡ x) × (n.size ≡ nat_abs x) };

    #[tactic(auto, using(crate::proofs::Signs::signed_of))]
    fn from(x: i64) -> Num {
        Num {
            minus: x < 0,
            size: x.unsigned_abs(),
        }
    }
}

impl Sub for Num {
    type Output = Num;

    ghost can_sub = { λ a b. (a.size ≤ 2 ^ 40) × (b.size ≤ 2 ^ 40) };

    ghost sub_gives = { λ a b n. (value n ≡ value a -ℤ value b) × (n.size ≤ a.size + b.size) };

    #[tactic(auto, using(crate::proofs::Signs::two_signs, crate::proofs::Signs::same_sign, crate::proofs::Signs::one_sign))]
    fn sub(self, b: Num) -> Num {
        if self.minus != b.minus {
            Num {
                size: self.size + b.size,
                ..self
            }
        } else {
            Num {
                minus: (self.size < b.size) != self.minus,
                size: self.size.abs_diff(b.size),
            }
        }
    }
}

// By a number that is not negative, div 2^30: the sign stays.
impl Mul<Fraction> for Num {
    type Output = Num;

    ghost can_mul = { λ a c. a.size ≤ 2 ^ 32 };

    ghost mul_gives = { λ a c n. (value n ≡ scaled (value a) (pos c.n)) × (n.size ≤ a.size) };

    #[tactic(auto, using(crate::proofs::Signs::scaled_pos))]
    fn mul(self, c: Fraction) -> Num {
        Num {
            size: self.size * c,
            ..self
        }
    }
}

// By a number of either sign, div 2^30, rounded toward zero.
impl Mul<Sine> for Num {
    type Output = Num;

    ghost can_mul = { λ a b. a.size ≤ 2 ^ 32 };

    ghost mul_gives = { λ a b n. (value n ≡ scaled (value a) (value b.n)) × (n.size ≤ a.size) };

    #[tactic(auto, using(crate::proofs::Signs::scaled_signs))]
    fn mul(self, b: Sine) -> Num {
        Num {
            minus: self.minus != b.n.minus,
            size: self.size * Fraction { n: b.n.size },
        }
    }
}
