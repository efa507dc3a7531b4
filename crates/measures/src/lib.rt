// Floats brought to whole numbers: degrees, in range and in ticks, and a distance in steps of 5 km.
#![tactic(auto)]

pub mod degrees;
pub mod steps;
