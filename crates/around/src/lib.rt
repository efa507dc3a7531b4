// Around a place of the grid: the sectors, the aircraft bits and the cells within 25 km.
#![tactic(auto)]

ghost use Rattle.std.specs.Prelude.{◌≡◌, ◌≤◌, ◌<◌, cond, set, true};
ghost use Rattle.around.specs.Marks.{around_of, sectors_in};

pub mod spans;

use plane::Centre;

// What lies around a place, as 01 lists it (a): the sectors that are marked, the aircraft bits, the cells.
#[derive(Clone, Copy)]
pub struct Nearby {
    pub marks: [bool; 8],
    pub aircraft: u32,
    pub cells: u32,
}

// One of the eight sectors: an index into the marks.
#[derive(Clone, Copy)]
pub struct Sector {
    pub k: usize,
    pub ghost in_marks: { k < 8 },
}

impl Sector {
    // The marks with that of the sector, if it is heard.
    pub fn mark(self, mut marks: [bool; 8], heard: bool) -> [bool; 8]
        ensures { result ≡ cond heard (set marks self.k true) marks }
    {
        if heard {
            marks[self.k] = true;
        }
        marks
    }
}

// How many sectors are marked.
pub fn sectors(marks: [bool; 8]) -> u32
    ensures { (result ≡ sectors_in marks) × (result ≤ 8) }
{
    let mut n = 0;
    for mark in &marks {
        n += *mark as u32;
    }
    n
}

// Around a place: a cell's centre, or the site.
pub fn around(grid: &[u32; 1600], at: Centre) -> Nearby
    ensures { result ≡ around_of grid.now at.place.x at.place.y }
{
    let heard = spans::heard_before(grid);
    let marks = spans::marks_around(&heard, at);
    let aircraft = spans::bits_around(grid, at.place);
    let cells = spans::cells_around(&heard, at.place);
    Nearby {
        marks,
        aircraft,
        cells,
    }
}
