// What was heard over the halves still kept, merged.
#![tactic(auto)]

ghost use Rattle.std.specs.Prelude.{◌≡◌, ℕ, ◌||◌, ◌&&◌, cond, ◌+◌, ◌≤◌, ◌<◌, eqb, length};
ghost use Rattle.cells.specs.Cells.{empty_word};
ghost use Rattle.cells.specs.Passes.{some, table};
ghost use Rattle.view.specs.View.{kept, merged_at, grid_of, heard_word, heard_in, far_of, occupied_among, positions_among};

// The merged far bins, and how many positions they hold: one record (01) (a).
#[derive(Clone, Copy)]
pub struct Far {
    pub cells: [u32; 72],
    pub positions: u32,
}

// What was heard, merged: the grid, and the bins past it.
#[derive(Clone, Copy)]
pub struct Merged<'a> {
    pub grid: &'a [u32; 1600],
    pub far: Far,
}

// The cells of a row, and which of its halves are merged.
#[derive(Clone, Copy)]
pub struct Halves<'a> {
    pub cells: &'a [u32],
    pub even: bool,
    pub odd: bool,
    pub ghost whole: { length cells.now ≡ 3344 },
}

// Whether an id is that of now or one less. An id may be any number, the largest too: nothing is added to it.
fn is_recent(id: u64, now: u64) -> bool
    ensures { result ≡ (eqb id now || eqb (id + 1) now) }
{
    if id < now { now - id == 1 } else { id == now }
}

// Whether a half with this id is merged at now_ms.
#[tactic(auto, unfolding(crate::specs::View::kept))]
pub fn kept_at(id: Option<u64>, now_ms: u64) -> bool
    ensures { result ≡ kept id now_ms }
{
    id.is_some_and(|n| is_recent(n, now_ms / 43200000))
}

// A cell of a half, or the empty one if the half is not merged.
fn heard(keep: bool, w: u32) -> u32
    ensures { result ≡ cond keep w empty_word }
{
    if keep { w } else { cells::empty_word() }
}

// Whether one of some words is occupied: the bits of all of them together tell.
pub fn heard_among(words: &[u32]) -> bool
    ensures { result ≡ some (heard_word words.now) (length words.now) }
{
    let mut all = 0;
    for w in words {
        all |= *w;
    }
    cells::occupied(all)
}

// The same of words of a half that is merged, or not.
fn kept_heard(keep: bool, words: &[u32]) -> bool
    ensures { result ≡ (keep && some (heard_word words.now) (length words.now)) }
{
    keep && heard_among(words)
}

// How many of some words are occupied: no more than a grid has.
pub fn occupied_among(words: &[u32]) -> u32
    requires { length words.now ≤ 1600 }
    ensures { (result ≡ occupied_among words.now (length words.now)) × (result ≤ 1600) }
{
    let mut n = 0;
    for w in words {
        if cells::occupied(*w) {
            n += 1;
        }
    }
    n
}

// The positions of some words.
pub fn positions_among(words: &[u32]) -> u32
    requires { length words.now ≤ 1600 }
    ensures { (result ≡ positions_among words.now (length words.now)) × (result ≤ 408000) }
{
    let mut sum = 0;
    for w in words {
        sum += cells::count_of(*w);
    }
    sum
}

impl<'a> Halves<'a> {
    // Cell i of both halves, merged.
    #[tactic(auto, unfolding(crate::specs::View::merged_of, crate::specs::View::merged_at))]
    fn merged_at(self, i: usize) -> u32
        requires { i < 1672 }
        ensures { result ≡ merged_at self.entry.cells.now self.entry.even self.entry.odd i }
    {
        cells::merged_word(
            heard(self.even, self.cells[i]),
            heard(self.odd, self.cells[1672 + i]),
        )
    }

    // Whether a cell of the merged grid is occupied.
    pub fn grid_heard(self) -> bool
        ensures { result ≡ heard_in (grid_of self.entry.cells.now self.entry.even self.entry.odd) }
    {
        kept_heard(self.even, &self.cells[..1600]) || kept_heard(self.odd, &self.cells[1672..3272])
    }

    // N cells of both halves, from `start` on, merged.
    fn merged_from<const N: usize>(self, start: usize) -> [u32; N]
        requires { start + N ≤ 1672 }
        ensures { result ≡ table (λ (i : ℕ). merged_at self.entry.cells.now self.entry.even self.entry.odd (start + i)) N }
    {
        let mut merged = [0u32; N];
        for i in 0..N {
            merged[i] = self.merged_at(start + i);
        }
        merged
    }

    // The merged grid.
    pub fn grid_view(self) -> [u32; 1600]
        ensures { result ≡ grid_of self.entry.cells.now self.entry.even self.entry.odd }
    {
        self.merged_from(0)
    }

    // The merged far bins with their position total.
    pub fn far_view(self) -> Far
        ensures { result ≡ far_of self.entry.cells.now self.entry.even self.entry.odd }
    {
        let bins = self.merged_from(1600);
        Far {
            cells: bins,
            positions: positions_among(&bins),
        }
    }
}
