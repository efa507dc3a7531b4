// Nothing heard near the site: how far the typical position is, the two nearest places aside. Nothing is sorted here: the places under
// 60 km are counted, and of all positions, which crate `nearest` gathers by their steps, those of the two nearest are taken out.
#![tactic(auto)]

ghost use Rattle.std.specs.Prelude.{◌≡◌, List, ℕ, ◌-◌, ◌≤◌, ◌<◌, min, ltb, get_or, set};
ghost use Rattle.cells.specs.Passes.{first};
ghost use Rattle.plane.specs.Plane.{steps};
ghost use Rattle.view.specs.View.{Unheard, positions_among};
ghost use Rattle.nearest.specs.Nothing.{km, places_heard, places, third, from_third, positions_in, typical_in, nothing_near};
ghost use Rattle.nearest.specs.Counted.{below};
ghost use Rattle.nothing_near.specs.Counted.{near_cells, reached_at, Kept};

use near_field::near;
use nearest::{Nearest, Spot, cell_steps, nearest_bins, nearest_cells, none_nearest, with_bins};
use plane::Index;
use view::{Far, Merged};

// How many places were heard.
pub fn places_in(m: Merged) -> u32
    ensures { result ≡ places m.entry.grid.now m.entry.far }
{
    // by way of a name, here and below: the prover takes no reference that a field holds as a slice
    let grid = m.grid;
    view::occupied_among(grid) + view::occupied_among(&m.far.cells)
}

// How many occupied cells are under 60 km away, but no more than three. Rows 0 to 7 and 32 to 39 have none.
fn near_cells(grid: &[u32; 1600]) -> u32
    ensures { result ≡ min 3 (near_cells grid.now) }
{
    let mut n = 0;
    for i in 320..1280 {
        n += near::is_within(grid[i], Index { i }, 575) as u32;
        if n == 3 {
            return 3;
        }
    }
    n
}

// Whether the third nearest place, or the last of fewer, is under 60 km away.
fn third_is_near(m: Merged) -> bool
    requires { 0 < positions_in (places_heard m.grid.now m.far) }
    ensures { result ≡ ltb (third (places_heard m.entry.grid.now m.entry.far)).nearest (km 60) }
{
    let near = near_cells(m.grid);
    if near == 0 {
        return false;
    }
    if near == 3 {
        return true;
    }
    places_in(m) <= near
}

// The steps of the typical distance: the least at which twice the positions so far reach the total.
fn typical_steps(at: [u32; 161], total: u32) -> u32
    requires { (k : ℕ) → below at k ≤ 426360 }
    ensures { (result ≡ first (reached_at at total) 160) × (result ≤ 160) }
{
    let mut passed = 0;
    for (k, n) in at[..160].iter().enumerate() {
        passed += *n;
        if total <= 2 * passed {
            return k as u32;
        }
    }
    160
}

// One place's positions taken out.
fn without(mut steps: [u32; 161], spot: Spot) -> [u32; 161]
    requires { (spot.step < 161) × (spot.positions ≤ get_or steps spot.step 0) }
    ensures { result ≡ set steps spot.step (get_or steps spot.step 0 - spot.positions) }
{
    steps[spot.step] -= spot.positions;
    steps
}

// The steps of the typical distance from the third nearest place on: the nearest is left out unless it has all positions, and
// then the next unless it has all that are left.
fn steps_from_third(at: [u32; 161], total: u32, near: Nearest) -> u32
    requires { (grid : List ℕ) × (far : Far) × Kept at total near grid far }
    ensures { ((grid : List ℕ) (far : Far) → Kept at total near grid far → result ≡ steps (typical_in (from_third (places_heard grid far))) 1) × (result ≤ 160) }
{
    let first = near.first;
    if total <= first.positions {
        return typical_steps(at, total);
    }
    let later = without(at, first);
    let left = total - first.positions;
    let second = near.second;
    if left <= second.positions {
        return typical_steps(later, left);
    }
    typical_steps(without(later, second), left - second.positions)
}

// How many positions were heard, in all and past the grid. They are summed here, so nothing is asked of `far.positions`.
fn positions_heard(m: Merged) -> (u32, u32)
    ensures { (result.0 ≡ positions_in (places_heard m.entry.grid.now m.entry.far)) × (result.1 ≡ positions_among m.entry.far.cells 72) }
{
    let grid = m.grid;
    let past = view::positions_among(&m.far.cells);
    (view::positions_among(grid) + past, past)
}

// The nothing-near distance, if nothing is near.
pub fn nothing_near(m: Merged) -> Option<u32>
    ensures { result ≡ nothing_near m.entry.grid.now m.entry.far }
{
    let (total, past) = positions_heard(m);
    if total < 60 {
        return None;
    }
    if third_is_near(m) {
        return None;
    }
    let grid = m.grid;
    let far = Far {
        positions: past,
        ..m.far
    };
    let near = nearest_bins(nearest_cells(grid), far);
    let k = steps_from_third(with_bins(cell_steps(grid), far), total, near);
    Some(plane::steps_km(k))
}

// The same where no cell of the grid is occupied: no bin is near. One function over `Merged` and `Far` would be a trait of the positions, the
// third nearest place, the steps and the two nearest cells, each in two impls, for the three lines that both have (d).
pub fn nothing_near_far(far: Far) -> Option<u32>
    ensures { (grid : List ℕ) → Unheard grid → result ≡ nothing_near grid far }
{
    let total = view::positions_among(&far.cells);
    if 60 <= total {
        let far = Far {
            positions: total,
            ..far
        };
        let near = nearest_bins(none_nearest(), far);
        let k = steps_from_third(with_bins([0u32; 161], far), total, near);
        return Some(plane::steps_km(k));
    }
    None
}
