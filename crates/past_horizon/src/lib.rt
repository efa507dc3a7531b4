// The horizon part of a judging: how far the far bins' aircraft are past what the site could hear.
#![tactic(auto)]

ghost use Rattle.std.specs.Prelude.{◌≡◌, Float};
ghost use Rattle.root.specs.Root.{root};
ghost use Rattle.floats.specs.Horizon.{at_least_zero};
ghost use Rattle.past_horizon.specs.Horizon.{edge_of, bin_past, past_horizon};

use cells::Cell;
use floats::horizon;
use sites::Site;
use view::Far;

// The edge, kilometres, of the band of a bin. The nine bands stand in two tables more, in `angles` and in `nearest`: each has its own unit, a
// haversine, half cells squared, kilometres (d).
fn edge_km(bin: usize) -> f64
    ensures { result ≡ edge_of bin }
{
    let edges = [100u32, 150, 200, 250, 300, 350, 400, 500, 700];
    edges[bin % 9] as f64
}

// By how much one bin is past the horizon: it has a count and an altitude, and its edge is past what is allowed.
fn bin_past(w: u32, bin: usize, antenna_root: f64) -> Option<f64>
    ensures { (a : Float) → antenna_root ≡ root (at_least_zero a) → result ≡ bin_past w bin a }
{
    if !cells::occupied(w) {
        return None;
    }
    let ceiling = Cell::unpack(w).ceiling_m()?;
    horizon::past_by(edge_km(bin), antenna_root, ceiling)
}

// The middle excess of the bins past the horizon, if enough are: three bins, three aircraft, one position in twenty. The excesses
// fill an array, since there is no heap (a), and from its end: so they stand as the definition has them, the latest bin's first. From the front
// they stand the other way round, and the proof would need besides that `sorted` is the same of both (d).
fn middle_excess(site: Site, far: Far) -> Option<f64>
    ensures { result ≡ past_horizon site far }
{
    let antenna_root = horizon::root_of(sites::antenna_m(site));
    let mut xs = [0.0; 72];
    let mut at = 72;
    let mut positions = 0;
    let mut aircraft = 0;
    for (i, w) in far.cells.iter().enumerate() {
        if let Some(km) = bin_past(*w, i, antenna_root) {
            at -= 1;
            xs[at] = km;
            positions += cells::count_of(*w);
            aircraft |= cells::bits_of(*w);
        }
    }
    let n = 72 - at;
    if n < 3 {
        return None;
    }
    if aircraft.count_ones() < 3 {
        return None;
    }
    if positions * 20 < far.positions {
        return None;
    }
    Some(rank::nth(&xs[at..], n / 2))
}

// The same; where fewer than three bins are occupied no root need be taken. A function of its own: in one with `middle_excess` the bins
// are copied before the test, and a judging where little is heard takes 20 ns more (b).
pub fn past_horizon(site: Site, far: Far) -> Option<f64>
    ensures { result ≡ past_horizon site far }
{
    if view::occupied_among(&far.cells) < 3 {
        return None;
    }
    middle_excess(site, far)
}
