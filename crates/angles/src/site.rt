// Where a position lies seen from a site: the cell of the grid, or 1,600 + the far bin; and whether two sites are one place.
ghost use Rattle.std.specs.Prelude.{◌≡◌, ◌≤◌, ◌<◌, pos, nat_abs, ◌-ℤ◌};
ghost use Rattle.trig.specs.Ticks.{deg, wrap};
ghost use Rattle.trig.specs.Angle.{cosine};
ghost use Rattle.angles.specs.Place.{far_bin, placed, same_place};
ghost use Rattle.angles.specs.Place as spec;
ghost use Rattle.trig.specs.Value.{value};

use super::{bearing, plane, sphere};
use trig::num::Num;
use trig::series::Fraction;
use trig::turn;
use trig::turn::Angle;

// A place, in ticks.
#[derive(Clone, Copy)]
pub struct Ticks {
    pub lat: i64,
    pub lon: i64,
    pub ghost lat_in: { nat_abs lat ≤ deg 90 },
    pub ghost lon_in: { nat_abs lon ≤ deg 180 },
}

// Where a position lies: a cell of the grid, or 1,600 + the far bin: one number, the index into a half's 1,672 cells (a).
#[derive(Clone, Copy)]
pub struct Placed {
    pub number: u32,
    pub ghost in_range: { number < 1672 },
}

// A position seen from a site: both latitudes, and position less site.
#[derive(Clone, Copy)]
struct Seen {
    lat1: Angle,
    lat2: Angle,
    dlat: Angle,
    dlon: Angle,
    ghost lat1_in: { lat1.n.size ≤ deg 90 },
    ghost lat2_in: { lat2.n.size ≤ deg 90 },
}

// 9 × sector + band. The cosine of lat1 is handed on, since the plane has used it.
#[tactic(auto, unfolding(crate::specs::Place::far_bin, crate::specs::Bearing::eastward, crate::specs::Bearing::northward, crate::specs::Sphere::haversine))]
fn far_bin(s: Seen, c1: Fraction) -> u64
    requires { pos c1.n ≡ cosine (value s.lat1.n) }
    ensures { (result ≡ far_bin (value s.lat1.n) (value s.lat2.n) (value s.dlat.n) (value s.dlon.n)) × (result < 72) }
{
    let s1 = turn::sin_of(s.lat1);
    let s2 = turn::sin_of(s.lat2);
    let c2 = turn::cos_lat(s.lat2);
    let sd = turn::sin_of(s.dlon);
    let cd = turn::cos_of(s.dlon);
    let y = sd.n * c2;
    let x = bearing::to_north(s1, c1, s2, c2, cd);
    let h = sphere::haversine_of(c1, c2, s.dlat, s.dlon);
    9 * bearing::sector_of(y, x) + sphere::band_of(h)
}

fn placed_at(s: Seen) -> Placed
    ensures { result.number ≡ placed (value s.lat1.n) (value s.lat2.n) (value s.dlat.n) (value s.dlon.n) }
{
    let c1 = turn::cos_lat(s.lat1);
    let e = plane::to_east(c1, s.dlon);
    let n = plane::to_mm(s.dlat);
    let number = if e.size < 100000000 && n.size < 100000000 {
        let row = plane::column_of(n);
        let column = plane::column_of(e);
        40 * row + column
    } else {
        1600 + far_bin(s, c1)
    };
    Placed {
        number: number as u32,
    }
}

#[tactic(auto, using(trig::proofs::Sizes::read_back, trig::proofs::Sizes::read_less))]
fn seen_from(site: Ticks, position: Ticks) -> Seen
    ensures { (value result.lat1.n ≡ site.lat) × (value result.lat2.n ≡ position.lat) × (value result.dlat.n ≡ position.lat -ℤ site.lat) × (value result.dlon.n ≡ wrap (position.lon -ℤ site.lon)) }
{
    Seen {
        lat1: Angle {
            n: Num::from(site.lat),
        },
        lat2: Angle {
            n: Num::from(position.lat),
        },
        dlat: Angle {
            n: Num::from(position.lat - site.lat),
        },
        dlon: plane::wrapped(Num::from(position.lon - site.lon)),
    }
}

// Where a position lies seen from a site.
#[tactic(auto, unfolding(crate::specs::Place::place))]
pub fn place(site: Ticks, position: Ticks) -> Placed
    ensures { result.number ≡ spec.place site.lat site.lon position.lat position.lon }
{
    let s = seen_from(site, position);
    placed_at(s)
}

// Whether two sites are at most 1 km apart.
#[tactic(auto, unfolding(crate::specs::Place::same_place, crate::specs::Sphere::haversine))]
pub fn same_place(a: Ticks, b: Ticks) -> bool
    ensures { result ≡ same_place a.lat a.lon b.lat b.lon }
{
    let s = seen_from(a, b);
    let h = sphere::haversine_of(turn::cos_lat(s.lat1), turn::cos_lat(s.lat2), s.dlat, s.dlon);
    sphere::at_most_one(h)
}
