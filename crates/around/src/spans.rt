// Around a place, row by row. In a row the cells within 25 km of a place stand side by side, and so do those of one sector: of each such span
// two counts of the cells heard before its ends tell how many it holds. So a place asks 11 rows and not 1,600 cells.
ghost use Rattle.std.specs.Prelude.{◌≡◌, cond, List, ℕ, ◌+◌, ◌-◌, ◌*◌, ◌%◌, ◌≤◌, ◌<◌, leb, map};
ghost use Rattle.std.specs.Int.Bits.{bit_or};
ghost use Rattle.std.specs.Int.Count.{ones};
ghost use Rattle.cells.specs.Cells.{bits_of, occupied_word};
ghost use Rattle.cells.specs.Passes.{how_many};
ghost use Rattle.plane.specs.Plane.{square, apart};
ghost use Rattle.around.specs.Marks.{marks_of, bits_in, near};
ghost use Rattle.around.specs.Counts.{Reach, counts_of, under, cut_at, span_of, spans_of};

use super::Sector;
use plane::{Centre, Place};
use std::ops::Range;

// Before each cell, how many are occupied.
pub fn heard_before(grid: &[u32; 1600]) -> [u32; 1601]
    ensures { result ≡ counts_of grid.now }
{
    let mut heard = [0u32; 1601];
    let mut n = 0;
    for (i, w) in grid.iter().enumerate() {
        n += cells::occupied(*w) as u32;
        heard[i + 1] = n;
    }
    heard
}

// How many columns, or rows, have their centre under z half cells.
fn centres_under(z: u32) -> usize
    ensures { (result ≡ under z) × (result ≤ 40) }
{
    (z / 2).min(40) as usize
}

// The rows whose centre is at most 10 half cells north or south of a place.
fn rows_near(at: Place) -> Range<usize>
    ensures { (result.start ≡ under (at.y - 10)) × (result.end ≡ under (at.y + 11)) }
{
    centres_under(at.y.saturating_sub(10))..centres_under(at.y + 11)
}

// A row at most 10 half cells north or south of a place.
#[derive(Clone, Copy)]
struct Row {
    at: Place,
    row: usize,
    ghost near: { (row < 40) × (apart (2 * row + 1) at.y ≤ 10) },
}

impl Row {
    // The row's first cell whose centre is not under z half cells: an index into the counts, so 1,600 at most. What else has
    // that bound is a number of cells, which is no index: one type for both would say neither (d).
    fn cut(self, z: u32) -> usize
        ensures { (result ≡ cut_at self.row z) × (result ≤ 1600) }
    {
        40 * self.row + centres_under(z)
    }

    // How many half cells north or south of the place it lies.
    fn off(self) -> u32
        ensures { (result ≡ apart (2 * self.row + 1) self.at.y) × (result ≤ 10) }
    {
        (2 * (self.row as u32) + 1).abs_diff(self.at.y)
    }

    // Where its cells within 25 km begin and end: indices into the counts.
    fn ends(self) -> (usize, usize)
        ensures { (h : ℕ) × Reach (apart (2 * self.row + 1) self.at.y) h × (result.0 ≡ cut_at self.row (self.at.x - h)) × (result.1 ≡ cut_at self.row (self.at.x + h + 1)) × (result.0 ≤ result.1) × (result.1 ≤ 1600) }
    {
        let h = reach(self.off());
        (
            self.cut(self.at.x.saturating_sub(h)),
            self.cut(self.at.x + h + 1),
        )
    }
}

// By how many half cells a row lies north or south: how many half cells east or west, at most, those within 25 km lie.
const REACHES: [u32; 11] = [10, 9, 9, 9, 9, 8, 8, 7, 6, 4, 0];

pub fn reach(m: u32) -> u32
    requires { m ≤ 10 }
    ensures { Reach m result }
{
    REACHES[m as usize]
}

// The marks with that of a sector, if its span of a row holds a cell. Here and below the marks go in and out by value (01), so they are in
// no struct with the counts (a). Both indices have the bound that `plane` asks of a number of cells, which is another thing (d).
#[tactic(auto, unfolding(crate::specs::Counts::span_of))]
fn span(heard: &[u32; 1601], marks: [bool; 8], from: usize, to: usize, sector: Sector) -> [bool; 8]
    requires { (from ≤ 1600) × (to ≤ 1600) }
    ensures { result ≡ span_of heard.now marks from to sector.k }
{
    sector.mark(marks, heard[from] < heard[to])
}

// The sectors of a row north of a place, from west to east, and of one south of it. Two arrays and none of pairs: each goes whole into `spans` (d).
const NORTH: [Sector; 4] = [
    Sector { k: 6 },
    Sector { k: 7 },
    Sector { k: 0 },
    Sector { k: 1 },
];

const SOUTH: [Sector; 4] = [
    Sector { k: 5 },
    Sector { k: 4 },
    Sector { k: 3 },
    Sector { k: 2 },
];

// The marks with those of four spans of a row, one behind the other: where each begins and the last ends, and their sectors. No loop:
// with one a judging of a grid 60 km off takes 7 % more (b).
fn spans(
    heard: &[u32; 1601],
    marks: [bool; 8],
    row: Row,
    bounds: [u32; 5],
    sectors: [Sector; 4],
) -> [bool; 8]
    ensures { result ≡ spans_of heard.now marks row.row bounds (map (λ s. s.k) sectors) 4 }
{
    let from = row.cut(bounds[0]);
    let second = row.cut(bounds[1]);
    let third = row.cut(bounds[2]);
    let fourth = row.cut(bounds[3]);
    let end = row.cut(bounds[4]);
    let a = span(heard, marks, from, second, sectors[0]);
    let b = span(heard, a, second, third, sectors[1]);
    let c = span(heard, b, third, fourth, sectors[2]);
    span(heard, c, fourth, end, sectors[3])
}

// The marks of a row besides: north of the place, south of it, or its own. The place's own cell is not over 3 km away. The counts come
// alone, here and below: `Counted` of `near_field` would also ask for their grid, and `marks_around` asks nothing of them (d).
fn row_marks(heard: &[u32; 1601], marks: [bool; 8], at: Centre, row: usize) -> [bool; 8]
    requires { (row < 40) × (apart (2 * row + 1) at.place.y ≤ 10) }
    ensures { (g : List ℕ) → heard.now ≡ counts_of g → marks ≡ marks_of g at.place.x at.place.y (40 * row) → result ≡ marks_of g at.place.x at.place.y (40 * (row + 1)) }
{
    let r = Row { at: at.place, row };
    let x = at.place.x;
    let y = at.place.y;
    let cy = 2 * (row as u32) + 1;
    let m = r.off();
    let h = reach(m);
    let west = x.saturating_sub(h);
    let east = x + h + 1;
    if y < cy {
        let north = [west, x.saturating_sub(m.min(h)), x, x + m.min(h + 1), east];
        return spans(heard, marks, r, north, NORTH);
    }
    if cy < y {
        let south = [
            west,
            (x + 1).saturating_sub(m.min(h + 1)),
            x + 1,
            x + m.min(h) + 1,
            east,
        ];
        return spans(heard, marks, r, south, SOUTH);
    }
    let a = span(heard, marks, r.cut(west), r.cut(x), Sector { k: 6 });
    span(heard, a, r.cut(x + 1), r.cut(east), Sector { k: 2 })
}

// The sectors of the cells around a place: a cell's centre, or the site.
pub fn marks_around(heard: &[u32; 1601], at: Centre) -> [bool; 8]
    ensures { (g : List ℕ) → heard.now ≡ counts_of g → result ≡ marks_of g at.place.x at.place.y 1600 }
{
    let mut m = [false; 8];
    let rows = rows_near(at.place);
    for row in rows.start..rows.end {
        // by way of a name: the prover takes no array that a call lays into a variable of a loop
        let next = row_marks(heard, m, at, row);
        m = next;
    }
    m
}

// How many cells of a row lie around its place.
fn row_cells(heard: &[u32; 1601], row: Row) -> u32
    requires { (g : List ℕ) × (heard.now ≡ counts_of g) }
    ensures { ((g : List ℕ) → heard.now ≡ counts_of g → how_many (near g row.at.x row.at.y) (40 * row.row) + result ≡ how_many (near g row.at.x row.at.y) (40 * (row.row + 1))) × (result ≤ 40) }
{
    let (from, end) = row.ends();
    heard[end] - heard[from]
}

// How many cells lie around a place.
pub fn cells_around(heard: &[u32; 1601], at: Place) -> u32
    requires { (g : List ℕ) × (heard.now ≡ counts_of g) }
    ensures { (g : List ℕ) → heard.now ≡ counts_of g → result ≡ how_many (near g at.x at.y) 1600 }
{
    let mut n = 0;
    let rows = rows_near(at);
    for row in rows.start..rows.end {
        n += row_cells(heard, Row { at, row });
    }
    n
}

// The bits with those of a cell, if it is occupied.
fn or_bits(bits: u32, w: u32) -> u32
    ensures { result ≡ cond (occupied_word w) (bit_or bits (bits_of w)) bits }
{
    if cells::occupied(w) {
        bits | cells::bits_of(w)
    } else {
        bits
    }
}

// The aircraft bits of a row besides.
fn row_bits(grid: &[u32; 1600], bits: u32, row: Row) -> u32
    requires { bits ≡ bits_in (near grid.now row.at.x row.at.y) grid.now (40 * row.row) }
    ensures { result ≡ bits_in (near grid.now row.at.x row.at.y) grid.now (40 * (row.row + 1)) }
{
    let (from, end) = row.ends();
    let mut out = bits;
    for w in &grid[from..end] {
        out = or_bits(out, *w);
    }
    out
}

// The aircraft bits around a place.
pub fn bits_around(grid: &[u32; 1600], at: Place) -> u32
    ensures { result ≡ bits_in (near grid.now at.x at.y) grid.now 1600 }
{
    let mut all = 0;
    let rows = rows_near(at);
    for row in rows.start..rows.end {
        all = row_bits(grid, all, Row { at, row });
    }
    all
}

// Whether there are 8 of them: once there are, there will be. By `bits_around`, which asks all rows, a judging of a grid 60 km off takes 25 %
// more (b).
pub fn enough_bits(grid: &[u32; 1600], at: Place) -> bool
    ensures { result ≡ leb 8 (ones (bits_in (near grid.now at.x at.y) grid.now 1600)) }
{
    let mut bits = 0;
    let rows = rows_near(at);
    for row in rows.start..rows.end {
        bits = row_bits(grid, bits, Row { at, row });
        if 8 <= bits.count_ones() {
            return true;
        }
    }
    false
}
