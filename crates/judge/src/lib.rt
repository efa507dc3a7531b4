// The judging of one row: where its cells say that the site is.
#![tactic(auto)]

ghost use Rattle.std.specs.Prelude.{◌≡◌, Bool, List, ℕ, T, Option, None, length};
ghost use Rattle.measures.specs.Steps.{distance};
ghost use Rattle.view.specs.View.{Unheard, grid_of};
ghost use Rattle.view.specs.declared.Far.{Far};
ghost use Rattle.nearest.specs.Nothing.{nothing_near};
ghost use Rattle.around.specs.Marks.{outside_of};
ghost use Rattle.near_field.specs.declared.Judgment.{Judgment};
ghost use Rattle.judge.specs.Judging.{horizon_off, after_horizon, judge_cells, judge_row, judge_of};

use measures::steps;
use near_field::{Evidence, Judgment, near};
use sites::Site;
use view::{Far, Halves, Merged};

// How far off past the horizon says: the nothing-near distance, else the excess.
#[tactic(auto, unfolding(crate::specs::Judging::horizon_off))]
fn horizon_off(empty: Option<u32>, excess: f64) -> u32
    requires { T (distance excess) }
    ensures { result ≡ horizon_off empty excess }
{
    empty.unwrap_or_else(|| steps::off_km(excess))
}

// The judging of the merged cells, or of the bins where no cell of the grid is occupied, by what either has to say: whether all is outside, the
// nothing-near distance, which is asked for only then, and what is judged where neither that nor the horizon says anything.
fn judge_by<E: FnOnce() -> Option<u32>, N: FnOnce(bool) -> Judgment>(
    site: Site,
    far: Far,
    outside: bool,
    off: E,
    near: N,
) -> Judgment
    requires { (E.IsAlwaysCallable off) × (N.IsAlwaysCallable near) }
    ensures { (grid : List ℕ) → outside ≡ outside_of grid far.cells → ((e : Option ℕ) → E.post off e → e ≡ nothing_near grid far) → ((j : Judgment) → N.post near outside j → j ≡ after_horizon None grid far outside) → result ≡ judge_cells site grid far }
{
    let empty = outside.then(off).flatten();
    match past_horizon::past_horizon(site, far) {
        Some(excess) => Judgment::Wrong {
            off_km: horizon_off(empty, excess),
            by: Evidence::Horizon,
        },
        None => match empty {
            Some(km) => Judgment::Wrong {
                off_km: km,
                by: Evidence::NothingNear,
            },
            None => near(outside),
        },
    }
}

// The near field, if there are places enough.
fn near_field(m: Merged, outside: bool) -> Judgment
    ensures { result ≡ after_horizon None m.entry.grid.now m.entry.far outside }
{
    if nothing_near::places_in(m) < 12 {
        return Judgment::Unjudged;
    }
    near::near_field(m.grid, outside)
}

// The judging of the merged cells. Grid and bins by way of names: a closure that holds `m`, which has a lifetime, ensures nothing (c).
fn judge_cells(site: Site, m: Merged) -> Judgment
    ensures { result ≡ judge_cells site m.entry.grid.now m.entry.far }
{
    let grid = m.grid;
    let far = m.far;
    judge_by(
        site,
        far,
        outside::outside(m),
        || nothing_near::nothing_near(Merged { grid, far }),
        |outside| near_field(Merged { grid, far }, outside),
    )
}

// The judging of the merged bins where no cell of the grid is occupied: the near field has no cell. Site and bins stay two, as in
// `past_horizon`: what is claimed and what was heard (d).
fn judge_far(site: Site, far: Far) -> Judgment
    ensures { (grid : List ℕ) → Unheard grid → result ≡ judge_cells site grid far }
{
    judge_by(
        site,
        far,
        outside::outside_far(far),
        || nothing_near::nothing_near_far(far),
        |_outside| Judgment::Unjudged,
    )
}

// The judging of the merged grid and bins. Not laid into its caller: the 13 KB that it works in are cleared on entry, and there it would be the entry of
// every judging, some 100 ns also where no grid is merged.
#[inline(never)]
fn judge_grid(site: Site, halves: Halves, far: Far) -> Judgment
    ensures { result ≡ judge_cells site (grid_of halves.entry.cells.now halves.entry.even halves.entry.odd) far }
{
    let grid = halves.grid_view();
    judge_cells(site, Merged { grid: &grid, far })
}

// The judging of a row's cells. Where no half is merged there is no place, and nothing need be looked at; where no cell of the
// grid is occupied the bins alone are judged.
fn judge_row(site: Site, halves: Halves) -> Judgment
    ensures { result ≡ judge_row site halves.entry.cells.now halves.entry.even halves.entry.odd }
{
    let even = halves.even;
    let odd = halves.odd;
    if even || odd {
        let far = halves.far_view();
        if halves.grid_heard() {
            return judge_grid(site, halves, far);
        }
        return judge_far(site, far);
    }
    Judgment::Unjudged
}

// Judges the claimed site at now_ms, the receiver having heard so many distinct aircraft. The parts of a row come one by one: `heard::Heard`
// also has a generation, which stored judgings have not (d).
pub fn judge(
    site: Option<Site>,
    even: Option<u64>,
    odd: Option<u64>,
    cells: &[u32],
    now_ms: u64,
    aircraft: u64,
) -> Judgment
    requires { length cells.now ≡ 3344 }
    ensures { result ≡ judge_of site even odd cells.now now_ms aircraft }
{
    match site {
        Some(s) => {
            if aircraft < 15 {
                return Judgment::Unjudged;
            }
            let halves = Halves {
                cells,
                even: view::kept_at(even, now_ms),
                odd: view::kept_at(odd, now_ms),
            };
            judge_row(s, halves)
        }
        None => Judgment::Unjudged,
    }
}
