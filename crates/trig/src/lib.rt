// Sine and cosine of ticks, in whole numbers, and numbers with a sign.
#![tactic(auto)]

pub mod num;
pub mod series;
pub mod turn;
