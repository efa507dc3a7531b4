// The C functions for the relay's Rust: the horizon and the placing of a position here, the seven calls in `calls`, the turn keeper in `ticks`. include/siting.h
// declares them.
#![tactic(auto, unfolding(replies::specs::Replies::Told))]

ghost use Rattle.std.specs.Prelude.{◌≡◌};
ghost use Rattle.floats.specs.Horizon.{horizon};
ghost use Rattle.sites.specs.Sites.{placing};

pub mod calls;
pub mod ticks;

// The radio horizon in km of an antenna and an aircraft so many metres up.
#[unsafe(no_mangle)]
pub extern "C" fn horizon_km(antenna_m: f64, aircraft_m: f64) -> f64
    ensures { result ≡ horizon antenna_m aircraft_m }
{
    floats::horizon::horizon_km(antenna_m, aircraft_m)
}

// The cell, or 1,600 + the far bin, of a position seen from a site; 65,535 where one of the four degrees is out of range.
#[unsafe(no_mangle)]
pub extern "C" fn siting_place(site_lat: f64, site_lon: f64, lat: f64, lon: f64) -> u16
    ensures { result ≡ placing site_lat site_lon lat lon }
{
    sites::place(site_lat, site_lon, lat, lon)
}
