// The places heard, for crate `nothing_near`: their positions gathered by the 5 km step that their distance is said in, and the two nearest of them. Nothing is
// sorted here. What 01 calls nothing near is defined in specs/Nothing, over the list of all places.
#![tactic(auto)]

ghost use Rattle.std.specs.Prelude.{◌≡◌, List, [], ℕ, ◌+◌, ◌≤◌, ◌<◌, get_or, set};
ghost use Rattle.cells.specs.Cells.{count_of};
ghost use Rattle.view.specs.View.{positions_among};
ghost use Rattle.nearest.specs.declared.Spot.{Spot};
ghost use Rattle.nearest.specs.Counted.{cell_step, bin_step, cell_steps, all_steps, cell_spot, bin_spot, two_nearest, put, nearer, nearest_among};

use plane::Index;
use view::Far;

// A place heard: the square of its nearest distance, half cells, the steps of its typical one, and its positions.
#[derive(Clone, Copy)]
pub struct Spot {
    pub nearest: u64,
    pub step: usize,
    pub positions: u32,
}

// The two nearest of some places, in their order.
#[derive(Clone, Copy)]
pub struct Nearest {
    pub first: Spot,
    pub second: Spot,
}

// The steps that a cell's distance is said in.
fn cell_step(at: Index) -> usize
    ensures { (result ≡ cell_step at.i) × (result < 161) }
{
    plane::steps_of(at.from_site(), 1) as usize
}

// Of the nine bands of bins: the square of the edge, half cells, and the steps of the typical distance.
const BANDS: [(u64, usize); 9] = [
    (1600, 25),
    (3600, 35),
    (6400, 45),
    (10000, 55),
    (14400, 65),
    (19600, 75),
    (25600, 90),
    (40000, 120),
    (78400, 160),
];

fn bin_step(j: usize) -> usize
    ensures { (result ≡ bin_step j) × (result < 161) }
{
    BANDS[j % 9].1
}

// A cell's positions added at its steps. Its word and its number, here and below, come from a loop over the grid: a struct of both would be made for one call (d).
fn gather_cell(steps: &mut [u32; 161], w: u32, at: Index)
    requires { get_or steps.old (cell_step at.i) 0 ≤ 408000 }
    ensures { steps.new ≡ set steps.old (cell_step at.i) (get_or steps.old (cell_step at.i) 0 + count_of w) }
{
    let n = cells::count_of(w);
    if n == 0 {
        return;
    }
    let k = cell_step(at);
    steps[k] += n;
}

// The positions of the cells, by their steps.
pub fn cell_steps(grid: &[u32; 1600]) -> [u32; 161]
    ensures { result ≡ cell_steps grid.now }
{
    let mut at = [0u32; 161];
    for (i, w) in grid.iter().enumerate() {
        gather_cell(&mut at, *w, Index { i });
    }
    at
}

// The positions of the bins with those of the cells, by their steps: once all are seen no other bin is occupied.
pub fn with_bins(cells: [u32; 161], far: Far) -> [u32; 161]
    requires { ((grid : List ℕ) × (cells ≡ cell_steps grid)) × (far.positions ≡ positions_among far.cells 72) }
    ensures { (grid : List ℕ) → cells ≡ cell_steps grid → result ≡ all_steps grid far.cells }
{
    let mut at = cells;
    let mut seen = 0;
    for (j, w) in far.cells.iter().enumerate() {
        if far.positions <= seen {
            return at;
        }
        if cells::occupied(*w) {
            let k = bin_step(j);
            let n = cells::count_of(*w);
            at[k] += n;
            seen += n;
        }
    }
    at
}

// None is farther than any place, and has no positions: so no comparison asks whether there is one (d).
pub fn none_nearest() -> Nearest
    ensures { result ≡ two_nearest [] }
{
    let none = Spot {
        nearest: 1048576,
        step: 0,
        positions: 0,
    };
    Nearest {
        first: none,
        second: none,
    }
}

// A place that is nearer than the second, put before the first or behind it.
fn put(near: Nearest, spot: Spot) -> Nearest
    ensures { result ≡ put near spot }
{
    if spot.nearest < near.first.nearest {
        return Nearest {
            first: spot,
            second: near.first,
        };
    }
    Nearest {
        second: spot,
        ..near
    }
}

// The two nearest with one more place, of distance `nearest` and word w, behind its equals. Its steps are looked for only where it is near.
fn nearer<F: FnOnce() -> usize>(near: Nearest, nearest: u64, w: u32, step: F) -> Nearest
    requires { F.IsAlwaysCallable step }
    ensures { (s : Spot) → s.nearest ≡ nearest → s.positions ≡ count_of w → ((k : ℕ) → F.post step k → k ≡ s.step) → result ≡ nearer near s }
{
    if nearest < near.second.nearest {
        return put(
            near,
            Spot {
                nearest,
                step: step(),
                positions: cells::count_of(w),
            },
        );
    }
    near
}

// The same with a cell.
fn with_cell(near: Nearest, w: u32, at: Index) -> Nearest
    ensures { result ≡ nearer near (cell_spot w at.i) }
{
    nearer(near, at.from_site(), w, || cell_step(at))
}

// The same with a bin.
fn with_bin(near: Nearest, w: u32, j: usize) -> Nearest
    ensures { result ≡ nearer near (bin_spot w j) }
{
    nearer(near, BANDS[j % 9].0, w, || bin_step(j))
}

// The two nearest cells.
pub fn nearest_cells(grid: &[u32; 1600]) -> Nearest
    ensures { result ≡ nearest_among cell_spot grid.now (two_nearest []) 1600 }
{
    let mut near = none_nearest();
    for (i, w) in grid.iter().enumerate() {
        if cells::occupied(*w) {
            near = with_cell(near, *w, Index { i });
        }
    }
    near
}

// The two nearest of some places and the bins.
pub fn nearest_bins(places: Nearest, far: Far) -> Nearest
    requires { far.positions ≡ positions_among far.cells 72 }
    ensures { result ≡ nearest_among bin_spot far.cells places 72 }
{
    let mut near = places;
    let mut seen = 0;
    for (j, w) in far.cells.iter().enumerate() {
        if far.positions <= seen {
            return near;
        }
        if cells::occupied(*w) {
            near = with_bin(near, *w, j);
            seen += cells::count_of(*w);
        }
    }
    near
}
