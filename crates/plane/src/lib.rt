// The grid's plane, in half cells from its south-west corner: where a cell's centre lies, how far two places are apart, and the distance said.
#![tactic(auto)]

ghost use Rattle.std.specs.Prelude.{◌≡◌, ◌*◌, ◌%◌, ◌≤◌, ◌<◌, ◌^◌, max};
ghost use Rattle.plane.specs.Plane.{east_of, north_of, apart, square, dist, from_site, steps, said};

// A cell of the grid, by its number.
#[derive(Clone, Copy)]
pub struct Index {
    pub i: usize,
    pub ghost in_grid: { i < 1600 },
}

// A place of the grid's square.
#[derive(Clone, Copy)]
pub struct Place {
    pub x: u32,
    pub y: u32,
    pub ghost in_grid: { (x < 80) × (y < 80) },
}

// A cell's centre, or the site: both numbers are odd, or both even.
#[derive(Clone, Copy)]
pub struct Centre {
    pub place: Place,
    pub ghost alike: { place.x % 2 ≡ place.y % 2 },
}

impl Index {
    // The cell's centre.
    pub fn centre(self) -> Centre
        ensures { (result.place.x ≡ east_of self.i) × (result.place.y ≡ north_of self.i) }
    {
        Centre {
            place: Place {
                x: (2 * (self.i % 40) + 1) as u32,
                y: (2 * (self.i / 40) + 1) as u32,
            },
        }
    }

    // The square of its distance from the site.
    pub fn from_site(self) -> u64
        ensures { (result ≡ from_site self.i) × (result ≤ 2 ^ 41) }
    {
        self.centre().place.distance(Centre::SITE.place)
    }
}

impl Centre {
    // The site, in the grid's middle.
    pub const SITE: Centre = Centre {
        place: Place { x: 40, y: 40 },
    };
}

// The square of how far two numbers are apart.
#[tactic(auto, using(crate::proofs::Squares::small_square), unfolding(crate::specs::Plane::square))]
pub fn gap(a: u64, b: u64) -> u64
    requires { (a ≤ 2 ^ 20) × (b ≤ 2 ^ 20) }
    ensures { (result ≡ square (apart a b)) × (result ≤ 2 ^ 40) }
{
    let d = a.abs_diff(b);
    d * d
}

impl Place {
    // The square of its distance from another.
    pub fn distance(self, from: Place) -> u64
        ensures { (result ≡ dist self.x self.y from.x from.y) × (result ≤ 2 ^ 41) }
    {
        gap(self.x as u64, from.x as u64) + gap(self.y as u64, from.y as u64)
    }
}

// √num / den half cells in steps of 5 km, halves up. den is a number of cells, or 1: no more than a grid has. Tried in turn, as 01 has
// it: by `isqrt` of num / den² a case for a den of 0 would come before, and the half and the bound of 160 behind (d).
pub fn steps_of(num: u64, den: u64) -> u32
    requires { den ≤ 1600 }
    ensures { (result ≡ steps num den) × (result ≤ 160) }
{
    for k in 0..160 {
        let odd = (2 * k + 1) as u64 * den;
        if num < odd * odd {
            return k;
        }
    }
    160
}

// A number of steps, km: at least one step.
pub fn steps_km(k: u32) -> u32
    requires { k ≤ 160 }
    ensures { result ≡ 5 * max 1 k }
{
    k.max(1) * 5
}

// The distance said, km: in steps of 5, at least one step.
#[tactic(auto, unfolding(crate::specs::Plane::said))]
pub fn rounded(num: u64, den: u64) -> u32
    requires { den ≤ 1600 }
    ensures { result ≡ said num den }
{
    steps_km(steps_of(num, den))
}
