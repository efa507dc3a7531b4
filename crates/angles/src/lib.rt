// Plane and sphere: where a position lies seen from a site, in whole numbers.
#![tactic(auto)]

pub mod bearing;
pub mod plane;
pub mod site;
pub mod sphere;
