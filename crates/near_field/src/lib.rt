// The near field: a judgment by what lies around the site, and around the places of the grid. Its two enums are those of every judging.
#![tactic(auto)]

pub mod near;

// What a judging found: three cases, of which one has values (d).
#[derive(Clone, Copy)]
pub enum Judgment {
    Unjudged,
    Fits,
    Wrong { off_km: u32, by: Evidence },
}

// What found a site wrong; C and the comparison runs are given its number.
#[derive(Clone, Copy)]
pub enum Evidence {
    Horizon = 1,
    NearField = 2,
    NothingNear = 3,
}
