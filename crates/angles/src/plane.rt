// East and north of a site, in mm on its plane, and the cell of the grid.
ghost use Rattle.std.specs.Prelude.{◌≡◌, ◌*◌, ◌/◌, ◌≤◌, ◌<◌, pos};
ghost use Rattle.trig.specs.Ticks.{deg, wrap, scaled};
ghost use Rattle.angles.specs.Plane.{mm, column, together};
ghost use Rattle.trig.specs.Value.{value};

use trig::num::Num;
use trig::series::Fraction;
use trig::turn::{Angle, DEG_180};

const M: u64 = 1779121284;

const DEG_360: u64 = 360 << 24;

// A difference of longitudes, brought to -180 up to below 180 degrees.
pub fn wrapped(d: Num) -> Angle
    requires { d.size ≤ deg 360 }
    ensures { value result.n ≡ wrap (value d) }
{
    let n = d.size;
    let stays = if d.minus { n <= DEG_180 } else { n < DEG_180 };
    if stays {
        Angle { n: d }
    } else {
        Angle {
            n: Num {
                minus: !d.minus,
                size: DEG_360 - n,
            },
        }
    }
}

// Ticks to mm.
#[tactic(auto, using(crate::proofs::Wraps::mm_signed))]
pub fn to_mm(d: Angle) -> Num
    ensures { value result ≡ mm (value d.n) }
{
    Num {
        size: d.n.size * M / (1 << 28),
        ..d.n
    }
}

// East, from the cosine of the site's latitude.
pub fn to_east(c1: Fraction, dlon: Angle) -> Num
    ensures { value result ≡ mm (scaled (value dlon.n) (pos c1.n)) }
{
    to_mm(Angle { n: dlon.n * c1 })
}

// Columns and what is left beyond them in one number: 5,000,000 is 64 × 78,125, so the last six bits of a number of millimetres do not count for
// its column, and the columns found so far stand in them. So v % 64 are columns, and v / 64 is what is left, in units of 64 mm.
#[derive(Clone, Copy)]
struct Edge {
    v: u64,
    ghost in_grid: { together v < 40 * 78125 },
}

impl Edge {
    // The millimetres from the grid's edge, the 20 columns up to the site found by the sign.
    fn of(e: Num) -> Edge
        requires { e.size < 100000000 }
        ensures { (together result.v / 78125 ≡ column (value e)) × (result.v / 64 ≤ 20 * 78125) }
    {
        let n = e.size;
        let v = if e.minus {
            (100000000 - n) / 64 * 64
        } else {
            n / 64 * 64 + 20
        };
        Edge { v }
    }

    // One step: n columns more where they fit. What both make together stays.
    fn take_off(self, n: u64) -> Edge
        requires { (n ≤ 16) × (self.v / 64 < 2 * n * 78125) }
        ensures { (together result.v ≡ together self.v) × (result.v / 64 < n * 78125) }
    {
        let width = n * 5000000;
        let v = self.v;
        Edge {
            v: if v < width { v } else { v - (width - n) },
        }
    }

    // The last step, one column more where it fits: the columns found. What is left is not asked for.
    fn last_off(self) -> u64
        requires { self.v / 64 < 2 * 78125 }
        ensures { result ≡ together self.v / 78125 }
    {
        let columns = self.v % 64;
        if self.v < 5000000 {
            columns
        } else {
            columns + 1
        }
    }
}

// The column of an east, or the row of a north, below 100,000,000 mm in size. No division by 5,000,000: each step halves what is left.
pub fn column_of(e: Num) -> u64
    requires { e.size < 100000000 }
    ensures { (result ≡ column (value e)) × (result < 40) }
{
    let mut edge = Edge::of(e);
    for n in [16, 8, 4, 2] {
        edge = edge.take_off(n);
    }
    edge.last_off()
}
