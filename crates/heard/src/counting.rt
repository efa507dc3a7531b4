// Where a position is counted. In a file of its own, since the definitions that speak of it are not those of its fact.
ghost use Rattle.std.specs.Prelude.{◌≤◌, ◌<◌};

use crate::Heard;

// Its half starts at `start`, and is emptied first if the id is newer or the first.
#[derive(Clone, Copy)]
pub struct Counting {
    pub heard: Heard,
    pub newer: bool,
    pub start: u16,
    pub place: u16,
    pub low: u8,
    pub bit: u16,
    // A half has 1,672 cells, and a row two halves: the place lies within a row's cells.
    pub ghost fits: { (start ≤ 1672) × (place < 1672) },
}
