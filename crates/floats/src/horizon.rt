// The radio horizon, the heights that go into it, and how far an edge is past what it allows.
ghost use Rattle.std.specs.Prelude.{◌≡◌};
ghost use Rattle.std.specs.Float.{binary64};
ghost use Rattle.std.specs.Float.Ieee.{add, mul};
ghost use Rattle.root.specs.Root.{root};
ghost use Rattle.floats.specs.Horizon.{at_least_zero, four_twelve, horizon, antenna_of, ceiling_of};
ghost use Rattle.floats.specs.Rooted.{allowance_from, past_from};

// x, or +0 where x is a NaN, negative or either zero. `f64::max` may give either zero for two of them, so it is no maximum (d).
pub fn at_least_zero(x: f64) -> f64
    ensures { result ≡ at_least_zero x }
{
    if x > 0.0 { x } else { 0.0 }
}

// What a height goes into the horizon by.
pub fn root_of(height_m: f64) -> f64
    ensures { result ≡ root (at_least_zero height_m) }
{
    root::sqrt(at_least_zero(height_m))
}

// 4.12 × (√a + √b), from the two roots.
#[tactic(auto, using(crate::proofs::Literals::four_twelve_lem))]
fn from_roots(a: f64, b: f64) -> f64
    ensures { result ≡ mul binary64 four_twelve (add binary64 a b) }
{
    4.12 * (a + b)
}

// The radio horizon, kilometres, of an antenna and an aircraft so many metres above the surface.
#[tactic(auto, unfolding(crate::specs::Horizon::horizon))]
pub fn horizon_km(antenna_m: f64, aircraft_m: f64) -> f64
    ensures { result ≡ horizon antenna_m aircraft_m }
{
    let (a, b) = root::sqrt_both(at_least_zero(antenna_m), at_least_zero(aircraft_m));
    from_roots(a, b)
}

// What a bin's edge may be at most: 1.1 × horizon + 20. The antenna goes in by its root, which is taken once for all bins.
#[tactic(auto, using(crate::proofs::Literals::eleven_tenths_lem, crate::proofs::Literals::twenty_is), unfolding(crate::specs::Rooted::allowance_from))]
pub fn allowance_km(antenna_root: f64, aircraft_m: f64) -> f64
    ensures { result ≡ allowance_from antenna_root aircraft_m }
{
    1.1 * from_roots(antenna_root, root_of(aircraft_m)) + 20.0
}

// The antenna's height at a site of that altitude: max(alt, 0) + 100.
pub fn antenna_m(alt: i32) -> f64
    ensures { result ≡ antenna_of alt }
{
    alt.max(0) as f64 + 100.0
}

// The upper edge of an altitude bucket of 500 feet, in metres: ((low + 1) × 500) × 0.3048.
#[tactic(auto, using(crate::proofs::Literals::foot_is), unfolding(crate::specs::Horizon::ceiling_of))]
pub fn ceiling_m(low: u8) -> f64
    ensures { result ≡ ceiling_of low }
{
    let feet = (low as u32 + 1) * 500;
    feet as f64 * 0.3048
}

// By how much an edge is past the allowance, if it is.
#[tactic(auto, unfolding(crate::specs::Rooted::past_from))]
pub fn past_by(edge_km: f64, antenna_root: f64, aircraft_m: f64) -> Option<f64>
    ensures { result ≡ past_from edge_km antenna_root aircraft_m }
{
    let allowed = allowance_km(antenna_root, aircraft_m);
    (edge_km > allowed).then_some(edge_km - allowed)
}
