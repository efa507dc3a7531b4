// Functions on numbers for the comparison runs only: what the relay does not call. Crate `probes_c` exports them to C.
#![tactic(auto)]

ghost use Rattle.std.specs.Prelude.{◌≡◌};
ghost use Rattle.probes.specs.Probes.{same_answer};

use sites::Site;

pub mod column;
pub mod row;

// 1 where the two are one place, 0 where not, 4 for a "no" to question 4: numbers, since C reads them (a).
#[tactic(auto, unfolding(crate::specs::Probes::same_answer, sites::specs::Sites::same_place))]
pub fn probe_same_place(lat1: f64, lon1: f64, lat2: f64, lon2: f64) -> u8
    ensures { result ≡ same_answer lat1 lon1 lat2 lon2 }
{
    let a = Site {
        lat: lat1,
        lon: lon1,
        alt_m: None,
    };
    let b = Site {
        lat: lat2,
        lon: lon2,
        alt_m: None,
    };
    if sites::in_degrees(a) && sites::in_degrees(b) {
        u8::from(sites::same_place(a, b))
    } else {
        4
    }
}
