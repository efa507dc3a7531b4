// Sites: two degrees and an altitude. Whether they are within degrees, whether two are one place, and where a position lies seen from one.
#![tactic(auto)]

ghost use Rattle.std.specs.Prelude.{◌≡◌, ◌<◌, T};
ghost use Rattle.measures.specs.Degrees.{in_degrees, tick_of};
ghost use Rattle.sites.specs.Sites.{held, same_place, antenna, placed, placing};

use angles::site;
use angles::site::Ticks;
use floats::horizon;
use measures::degrees;

#[derive(Clone, Copy)]
pub struct Site {
    pub lat: f64,
    pub lon: f64,
    pub alt_m: Option<i32>,
}

// Question 4 of a site.
pub fn in_degrees(s: Site) -> bool
    ensures { result ≡ held s }
{
    degrees::in_degrees(s.lat, s.lon)
}

// Two degrees as the nearest ticks: here and below a position comes as two, as it lies flat where it is held (a).
fn in_ticks(lat: f64, lon: f64) -> Ticks
    requires { T (in_degrees lat lon) }
    ensures { (result.lat ≡ tick_of lat) × (result.lon ≡ tick_of lon) }
{
    Ticks {
        lat: degrees::tick(lat),
        lon: degrees::tick(lon),
    }
}

// At most 1 km apart. C and a lent row may hold any site, so that it is within degrees stands in clauses, and not in `Site` (a).
#[tactic(auto, unfolding(crate::specs::Sites::same_place))]
pub fn same_place(a: Site, b: Site) -> bool
    requires { T (held a) × T (held b) }
    ensures { result ≡ same_place a b }
{
    site::same_place(in_ticks(a.lat, a.lon), in_ticks(b.lat, b.lon))
}

// The antenna's height: max(alt or 0, 0) + 100.
pub fn antenna_m(s: Site) -> f64
    ensures { result ≡ antenna s }
{
    horizon::antenna_m(s.alt_m.unwrap_or(0))
}

// The cell, or 1,600 + the far bin, of a position seen from a site.
#[tactic(auto, unfolding(crate::specs::Sites::placed))]
pub fn place_in(s: Site, lat: f64, lon: f64) -> u16
    requires { T (held s) × T (in_degrees lat lon) }
    ensures { (result ≡ placed s.lat s.lon lat lon) × (result < 1672) }
{
    site::place(in_ticks(s.lat, s.lon), in_ticks(lat, lon)).number as u16
}

// The same of any four degrees: 65,535, as siting.h and the program's answer have it (a), where they are out of range.
#[tactic(auto, unfolding(crate::specs::Sites::placing))]
pub fn place(site_lat: f64, site_lon: f64, lat: f64, lon: f64) -> u16
    ensures { result ≡ placing site_lat site_lon lat lon }
{
    let s = Site {
        lat: site_lat,
        lon: site_lon,
        alt_m: None,
    };
    if in_degrees(s) && degrees::in_degrees(lat, lon) {
        place_in(s, lat, lon)
    } else {
        65535
    }
}
