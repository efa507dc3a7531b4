// The list, line by line: a cell is set, a row is judged and its answer compared, what was counted is printed.
ghost use Rattle.std.specs.Prelude.{◌≡◌, true, false, length};
ghost use Rattle.lines.specs.Streams.{source_failed, sink_failed};
ghost use Rattle.vectors.specs.Replays.{no_cells, no_counts, nothing_done, unread_of, compared_by, judged_by, cell_after, judging_after, after, answered};
ghost use Rattle.vectors.specs.Runs.{view_of, Stepped, Replayed};

use crate::read::Row;
use crate::{read, write};
use lines::{Line, Lines, Sink};
use std::io::{Read, Write};

// The vectors since the last count, those that differ, and the lines that cannot be read.
#[derive(Clone, Copy)]
pub struct Counts {
    pub vectors: u64,
    pub differ: u64,
    pub unread: u64,
}

// The cells that were set since the last judging, and what was counted.
#[derive(Clone, Copy)]
pub struct Done {
    pub cells: [u32; 3344],
    pub counts: Counts,
}

impl Counts {
    fn new() -> Counts
        ensures { result ≡ no_counts }
    {
        Counts {
            vectors: 0,
            differ: 0,
            unread: 0,
        }
    }

    // A line that cannot be read.
    fn miss(&mut self)
        ensures { self.new ≡ unread_of self.old }
    {
        self.unread = self.unread.wrapping_add(1);
    }

    // Our answer beside the stored one.
    #[tactic(auto, unfolding(crate::specs::Replays::compared_by))]
    fn compare(&mut self, ours: u64, stored: u64)
        ensures { self.new ≡ compared_by self.old ours stored }
    {
        self.vectors = self.vectors.wrapping_add(1);
        if ours != stored {
            self.differ = self.differ.wrapping_add(1);
        }
    }
}

fn no_cells() -> [u32; 3344]
    ensures { result ≡ no_cells }
{
    let empty = cells::empty_word();
    [empty; 3344]
}

// The judging of a row, as the number that stands for it in the list (a).
fn judged(r: Row, cells: &[u32]) -> u32
    ensures { result ≡ judged_by r cells.now }
{
    probes::row::judged(cells, r.site, r.even, r.odd, r.now_ms, r.aircraft)
}

impl Done {
    fn new() -> Done
        ensures { result ≡ nothing_done }
    {
        Done {
            cells: no_cells(),
            counts: Counts::new(),
        }
    }

    // cell I WORD
    #[tactic(auto, unfolding(crate::specs::Replays::cell_after))]
    fn cell(&mut self, t: &[u8])
        ensures { self.new ≡ cell_after self.old t.now }
    {
        match read::cell_in(t) {
            Ok(s) => self.cells[s.at] = s.word,
            Err(_) => self.counts.miss(),
        }
    }

    // Judges the cells that were set, and empties them.
    #[tactic(auto, unfolding(crate::specs::Replays::judging_after))]
    fn judging(&mut self, t: &[u8])
        ensures { self.new ≡ judging_after self.old t.now }
    {
        match read::row_in(t) {
            Ok(r) => {
                let ours = judged(r, &self.cells);
                self.counts.compare(u64::from(ours), r.answer);
            }
            Err(_) => self.counts.miss(),
        }
        self.cells = no_cells();
    }

    // What a line does, by its first word. A `match` on the word's bytes left a goal open for each of its five ways out (c).
    #[tactic(auto, using(fields::proofs::Lines::same_is), unfolding(crate::specs::Replays::after))]
    fn take(&mut self, t: &[u8])
        ensures { self.new ≡ after self.old t.now }
    {
        let w = read::first(t);
        if w == b"cell".as_slice() {
            self.cell(t);
        } else if w == b"judging".as_slice() {
            self.judging(t);
        } else if w == b"count".as_slice() {
            self.counts = Counts::new();
        } else if w != b"#".as_slice() {
            self.counts.miss();
        }
    }

    fn answer(&mut self, line: Line, t: &[u8])
        ensures { self.new ≡ answered self.old line t.now }
    {
        match line {
            Line::At { .. } => self.take(t),
            Line::TooLong => self.counts.miss(),
            Line::Nothing => {}
        }
    }
}

// Takes the next line, or reads more where no line is whole. That a sink that failed stays as it is relates two states of it, here, below and in `write` (d).
fn step<R: Read, W: Write>(done: &mut Done, list: &mut Lines<'_, R>, to: &mut Sink<W>)
    ensures turn { Stepped (view_of R.remaining W.contents list.old.input list.old.buf.now list.old.source to.old done.old) (view_of R.remaining W.contents list.new.input list.new.buf.now list.new.source to.new done.new) }
    ensures source { source_failed list.old.source ≡ true → list.new.source ≡ list.old.source }
    ensures sink { sink_failed to.old ≡ true → to.new ≡ to.old }
    ensures buffer { (list.new.buf.ghost_name ≡ list.old.buf.ghost_name) × (length list.new.buf.now ≡ length list.old.buf.now) }
{
    let line = list.next_line();
    let t = list.bytes(line);
    write::show(to, done.counts, t);
    done.answer(line, t);
}

// A proved loop has to end, and nothing says that the input does. So the loop has as many turns as no run uses up.
// Not one with the loop of `calls::input`: a common one would take the step as a closure with its contract over all that it changes (d).
pub fn run<R: Read, W: Write>(list: &mut Lines<'_, R>, to: &mut Sink<W>)
    ensures turns { Replayed (view_of R.remaining W.contents list.old.input list.old.buf.now list.old.source to.old nothing_done) (view_of R.remaining W.contents list.new.input list.new.buf.now list.new.source to.new) }
    ensures source { source_failed list.old.source ≡ true → list.new.source ≡ list.old.source }
    ensures sink { sink_failed to.old ≡ true → to.new ≡ to.old }
    ensures buffer { (list.new.buf.ghost_name ≡ list.old.buf.ghost_name) × (length list.new.buf.now ≡ length list.old.buf.now) }
{
    let mut done = Done::new();
    for turn in 0..u64::MAX {
        if !list.more() {
            break;
        }
        step(&mut done, list, to);
    }
}
