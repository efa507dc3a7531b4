// Outside: whether all that is heard, in the grid and past it, lies in at most 4 of the eight sectors seen from the site.
#![tactic(auto)]

ghost use Rattle.std.specs.Prelude.{◌≡◌, Bool, cond, true, ◌&&◌, ◌||◌, List, ℕ, ◌<◌, set};
ghost use Rattle.cells.specs.Cells.{occupied_word};
ghost use Rattle.cells.specs.Passes.{some, table};
ghost use Rattle.view.specs.View.{Unheard};
ghost use Rattle.plane.specs.Plane.{east_of, north_of, from_site, over3, sector_from};
ghost use Rattle.around.specs.Marks.{cell_in, bin_in, outside_of};

use angles::bearing;
use around::{Sector, sectors};
use plane::Index;
use trig::num::Num;
use view::{Far, Merged};

// The marks with that of cell i, seen from the site, if it is occupied and over 3 km away. Its word and its number come from a loop over the
// grid: a struct of both would be made for one call (d).
fn cell_mark(marks: [bool; 8], w: u32, at: Index) -> [bool; 8]
    ensures { result ≡ cond (occupied_word w && over3 (from_site at.i)) (set marks (sector_from (east_of at.i) (north_of at.i) 40 40) true) marks }
{
    if !cells::occupied(w) {
        return marks;
    }
    if 144 < 100 * at.from_site() {
        let centre = at.centre().place;
        let east = Num::from(centre.x as i64 - 40);
        let north = Num::from(centre.y as i64 - 40);
        let k = bearing::sector_of(east, north);
        return Sector { k: k as usize }.mark(marks, true);
    }
    marks
}

// The sectors of the occupied cells, seen from the site.
fn cell_marks(grid: &[u32; 1600]) -> [bool; 8]
    ensures { result ≡ table (λ k. some (cell_in grid.now k) 1600) 8 }
{
    let mut m = [false; 8];
    for (i, w) in grid.iter().enumerate() {
        // by way of a name, here and below: the prover takes no array that a call lays into a variable of a loop
        let next = cell_mark(m, *w, Index { i });
        m = next;
    }
    m
}

// Whether a bin of a sector is occupied.
fn bin_heard(bins: &[u32; 72], sector: Sector) -> bool
    ensures { result ≡ some (bin_in bins.now sector.k) 72 }
{
    view::heard_among(&bins[9 * sector.k..9 * sector.k + 9])
}

// The marks with those of the bins.
fn bin_marks(marks: [bool; 8], bins: &[u32; 72]) -> [bool; 8]
    ensures { (f : ℕ → Bool) → marks ≡ table f 8 → result ≡ table (λ k. f k || some (bin_in bins.now k) 72) 8 }
{
    let mut m = marks;
    for k in 0..8 {
        let sector = Sector { k };
        let next = sector.mark(m, bin_heard(bins, sector));
        m = next;
    }
    m
}

// Whether all that is heard lies in at most 4 sectors.
pub fn outside(m: Merged) -> bool
    ensures { result ≡ outside_of m.entry.grid.now m.entry.far.cells }
{
    sectors(bin_marks(cell_marks(m.grid), &m.far.cells)) <= 4
}

// The same where no cell of the grid is occupied: no mark to begin with. One function over `Merged` and `Far` would be a trait that has this
// line in each of its two impls (d).
pub fn outside_far(far: Far) -> bool
    ensures { (grid : List ℕ) → Unheard grid → result ≡ outside_of grid far.cells }
{
    sectors(bin_marks([false; 8], &far.cells)) <= 4
}
