// The haversine of two places, and the distances that it reaches.
ghost use Rattle.std.specs.Prelude.{◌≡◌, ◌<◌, pos};
ghost use Rattle.trig.specs.Ticks.{scaled};
ghost use Rattle.trig.specs.Angle.{sine};
ghost use Rattle.angles.specs.Sphere.{half, hav, at_most_one, band};
ghost use Rattle.trig.specs.Value.{value};

use trig::series::Fraction;
use trig::turn;
use trig::turn::Angle;

// From 100, 150, 200, 250, 300, 350, 400, 500 and 700 km on.
const EDGES: [u64; 9] = [
    71009154916249,
    159766515854884,
    284019126119689,
    443759419097604,
    638977486224016,
    869661338580441,
    1135796831512225,
    1774354542655744,
    3476021473346436,
];

// a² + (q × b div 2^30) × b.
#[tactic(auto, unfolding(crate::specs::Sphere::hav, trig::specs::Ticks::scaled))]
fn two_squares(a: Fraction, b: Fraction, q: Fraction) -> u64
    ensures { pos result ≡ hav (pos a.n) (pos b.n) (pos q.n) }
{
    let p = q * b;
    a.n * a.n + p.n * b.n
}

// The haversine, from the cosines of the two latitudes.
#[tactic(auto, unfolding(trig::specs::Ticks::scaled))]
pub fn haversine_of(c1: Fraction, c2: Fraction, dlat: Angle, dlon: Angle) -> u64
    ensures { pos result ≡ hav (sine (half (value dlat.n))) (sine (half (value dlon.n))) (scaled (pos c1.n) (pos c2.n)) }
{
    let a = turn::sin_half(dlat);
    let b = turn::sin_half(dlon);
    two_squares(a, b, c1 * c2)
}

// At most 1 km. Two numbers are compared, and no fields: no derive says it (d).
#[tactic(auto, unfolding(crate::specs::Sphere::at_most_one, crate::specs::Sphere::edge, trig::specs::Series::sin_h, trig::specs::Series::term))]
pub fn at_most_one(h: u64) -> bool
    ensures { result ≡ at_most_one (pos h) }
{
    h <= 7100758756
}

// The number of the last edge reached, else 0.
pub fn band_of(h: u64) -> u64
    ensures { (result ≡ band (pos h)) × (result < 9) }
{
    EDGES.partition_point(|edge| *edge <= h).saturating_sub(1) as u64
}
