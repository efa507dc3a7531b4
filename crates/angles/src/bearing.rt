// The compass sector of a position seen from a site.
ghost use Rattle.std.specs.Prelude.{◌≡◌, ◌+◌, ◌≤◌, ◌<◌, pos, ◌-ℤ◌};
ghost use Rattle.trig.specs.Ticks.{scaled};
ghost use Rattle.angles.specs.Bearing.{quarter, sector};
ghost use Rattle.trig.specs.Value.{value};

use trig::num::{Num, Sine};
use trig::series::Fraction;

// X, from the sines and cosines of the two latitudes and the cosine of dlon.
#[tactic(auto, using(trig::proofs::Signs::scaled_comm))]
pub fn to_north(s1: Sine, c1: Fraction, s2: Sine, c2: Fraction, cd: Sine) -> Num
    ensures { value result ≡ scaled (pos c1.n) (value s2.n) -ℤ scaled (scaled (value s1.n) (pos c2.n)) (value cd.n) }
{
    let p = s2.n * c1;
    let q = s1.n * c2;
    p - q * cd
}

// The sector between two of N, E, S, W, of the sizes towards the first, whose sector is k, and the second.
fn quarter_of(k: u64, ahead: u64, side: u64) -> u64
    requires { k ≤ 6 }
    ensures { (result ≡ quarter k ahead side) × (result ≤ k + 1) }
{
    k + (ahead <= side) as u64
}

// Of an east y and a north x, neither of them zero.
fn between(y: Num, x: Num) -> u64
    requires { (0 < y.size) × (0 < x.size) }
    ensures { (result ≡ sector (value y) (value x)) × (result < 8) }
{
    match (y.minus, x.minus) {
        (true, true) => quarter_of(4, x.size, y.size),
        (true, false) => quarter_of(6, y.size, x.size),
        (false, true) => quarter_of(2, y.size, x.size),
        (false, false) => quarter_of(0, x.size, y.size),
    }
}

// Of an east y and a north x.
pub fn sector_of(y: Num, x: Num) -> u64
    ensures { (result ≡ sector (value y) (value x)) × (result < 8) }
{
    match (y.size, x.size) {
        (0, 0) => 0,
        (0, _) => if x.minus { 4 } else { 0 },
        (_, 0) => if y.minus { 6 } else { 2 },
        (_, _) => between(y, x),
    }
}
