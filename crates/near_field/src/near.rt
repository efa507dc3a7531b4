// The near-field judgment.
ghost use Rattle.std.specs.Prelude.{◌≡◌, cond, ◌&&◌, ◌≤◌, ◌<◌, leb, unwrap_or, IfSome, Some, None};
ghost use Rattle.cells.specs.Passes.{sum_of};
ghost use Rattle.cells.specs.Cells.{occupied_word};
ghost use Rattle.plane.specs.Plane.{east_of, north_of, from_site};
ghost use Rattle.around.specs.Counts.{counts_of};
ghost use Rattle.near_field.specs.Near.{cells_within, no_hole, found, cells_around, best_of, member, members, found_of, near_field_by, near_field};

use super::{Evidence, Judgment};
use around::spans;
use plane::{Centre, Index};

// Whether a cell is occupied and at most √bound half cells from the site. Its word and its number come from a loop over the grid, and a
// struct of both would be made for one call (d).
pub fn is_within(w: u32, at: Index, bound: u64) -> bool
    ensures { result ≡ (occupied_word w && leb (from_site at.i) bound) }
{
    cells::occupied(w) && at.from_site() <= bound
}

// How many such cells there are: no more than a grid has.
pub fn cells_within(grid: &[u32; 1600], bound: u64) -> u32
    ensures { (result ≡ cells_within grid.now bound) × (result ≤ 1600) }
{
    let mut n = 0;
    for (i, w) in grid.iter().enumerate() {
        n += is_within(*w, Index { i }, bound) as u32;
    }
    n
}

// Whether the third nearest cell is under 15 km away, or missing.
pub fn no_hole(grid: &[u32; 1600]) -> bool
    ensures { result ≡ no_hole grid.now }
{
    view::occupied_among(grid) < 3 || 3 <= cells_within(grid, 35)
}

// How many members there are, and the sums of their easts and norths.
#[derive(Clone, Copy)]
struct Group {
    cells: u32,
    east: u32,
    north: u32,
}

// A grid, and before each cell how many are occupied.
#[derive(Clone, Copy)]
struct Counted<'a> {
    grid: &'a [u32; 1600],
    heard: &'a [u32; 1601],
    ghost counted: { heard.now ≡ counts_of grid.now },
}

impl<'a> Counted<'a> {
    // The cells around a cell, if it is a found one.
    fn found_cells(self, at: Index) -> Option<u32>
        ensures { result ≡ cond (found self.entry.grid.now at.i) (Some (cells_around self.entry.grid.now at.i)) None }
    {
        if !cells::occupied(self.grid[at.i]) {
            return None;
        }
        let centre = at.centre();
        if around::sectors(spans::marks_around(self.heard, centre)) < 7 {
            return None;
        }
        if spans::enough_bits(self.grid, centre.place) {
            return Some(spans::cells_around(self.heard, centre.place));
        }
        None
    }

    // The found cell with most cells around, the first of those, if one is found.
    fn best_cell(self) -> Option<usize>
        ensures { (unwrap_or result 1600 ≡ best_of self.entry.grid.now 1600) × IfSome result (λ i. i < 1600) }
    {
        let mut best = None;
        let mut most = 0;
        for i in 0..1600 {
            let n = self.found_cells(Index { i }).unwrap_or(0);
            if most < n {
                best = Some(i);
                most = n;
            }
        }
        best
    }

    // Whether a cell is found, and within 25 km of the best.
    fn is_member(self, best: Index, at: Index) -> bool
        ensures { result ≡ member self.entry.grid.now best.i at.i }
    {
        let d = at.centre().place.distance(best.centre().place);
        d <= 100 && self.found_cells(at).is_some()
    }

    // The members.
    fn group_of(self, best: Index) -> Group
        ensures { (result.cells ≡ members self.entry.grid.now best.i) × (result.east ≡ sum_of (member self.entry.grid.now best.i) east_of 1600) × (result.north ≡ sum_of (member self.entry.grid.now best.i) north_of 1600) × (result.cells ≤ 1600) × (result.east ≤ 126400) × (result.north ≤ 126400) }
    {
        let mut n = 0;
        let mut east = 0;
        let mut north = 0;
        for i in 0..1600 {
            let at = Index { i };
            if self.is_member(best, at) {
                let centre = at.centre();
                n += 1;
                east += centre.place.x;
                north += centre.place.y;
            }
        }
        Group {
            cells: n,
            east,
            north,
        }
    }

    // The judgment of the group around the best cell.
    fn found_at(self, best: Index, scale: u64) -> Judgment
        requires { scale ≤ 4 }
        ensures { result ≡ found_of scale self.entry.grid.now best.i }
    {
        let g = self.group_of(best);
        let n = g.cells as u64;
        let m = plane::gap(g.east as u64, 40 * n) + plane::gap(g.north as u64, 40 * n);
        if m < 10 * n * (10 * n) {
            return Judgment::Unjudged;
        }
        Judgment::Wrong {
            off_km: plane::rounded(scale * m, n),
            by: Evidence::NearField,
        }
    }
}

// The near-field judgment of a site outside what is heard, or not: scale is 1 for cells of 5 km and 4 for cells of 10 km, for which the
// same half cells hold. Only those of 5 km are judged so far; the contract is for both.
pub fn near_field_by(grid: &[u32; 1600], outside: bool, scale: u64) -> Judgment
    requires { scale ≤ 4 }
    ensures { result ≡ near_field_by scale grid.now outside }
{
    let s = around::sectors(around::around(grid, Centre::SITE).marks);
    if 5 <= s {
        return Judgment::Fits;
    }
    if 3 < s {
        return Judgment::Unjudged;
    }
    if !outside {
        return Judgment::Unjudged;
    }
    if no_hole(grid) {
        return Judgment::Unjudged;
    }
    let heard = spans::heard_before(grid);
    let counted = Counted {
        grid,
        heard: &heard,
    };
    match counted.best_cell() {
        Some(i) => counted.found_at(Index { i }, scale),
        None => Judgment::Unjudged,
    }
}

// The same for cells of 5 km.
pub fn near_field(grid: &[u32; 1600], outside: bool) -> Judgment
    ensures { result ≡ near_field grid.now outside }
{
    near_field_by(grid, outside, 1)
}
