// What the siting watch does in f64: the radio horizon, its allowance, and how far past it an edge is.
#![tactic(auto)]

pub mod horizon;
