// The watch: words, cells and ends that are lent, and how many of them are in use.
ghost use Rattle.lending.specs.Lendings.{Within};

use crate::{Size, digest};
use grammar::Change;
use readers::Fault;
use rows::Row;
use scans::Key;

#[derive(Drop)]
pub struct Watch<'a> {
    pub size: Size,
    pub rows: &'a mut [u64],
    pub cells: &'a mut [u32],
    pub ends: &'a mut [u32; 3],
    // That 64 rows are lent stands in clauses: a digest and a tick do not ask it, and a field would ask it of their callers. A second
    // type around `Watch` would be opened for each digest and tick (d).
    pub ghost fits: { Within size rows.now cells.now },
}

impl<'a> Watch<'a> {
    ghost use Rattle.std.specs.Prelude.{◌≡◌, ◌*◌, [], ◌∷◌, length, take};
    ghost use Rattle.lending.specs.Lendings.{Room, lent_to, no_ends, Lends, RowSet, CellSet, Applied};
    ghost use Rattle.lending.specs.Digests.{digest_of};
    ghost use Rattle.lending.specs.Same.{SameLent};

    // lend C N: C rows as unmade, N empty cells, no ends; an error leaves all as it was.
    #[tactic(auto, using(crate::proofs::Writing::lendable_within, crate::proofs::Writing::lends_not, crate::proofs::Writing::lends_is))]
    pub fn lend(&mut self, c: u32, n: u32) -> Result<(), Fault>
        requires { Room self.old.rows.now self.old.cells.now }
        ensures lends { Lends c n self.old.size self.old.rows.now self.old.cells.now self.old.ends.now self.new.size self.new.rows.now self.new.cells.now self.new.ends.now result }
        ensures long { (length self.new.rows.now ≡ length self.old.rows.now) × (length self.new.cells.now ≡ length self.old.cells.now) }
        ensures same { SameLent self.old self.new }
    {
        let size = crate::may_lend(c, n)?;
        self.size = size;
        crate::unmake_first(self.rows, size.rows);
        crate::empty_first(self.cells, size.cells);
        self.no_ends();
        Ok(())
    }

    // What a line leaves as it is stands in its clause `kept`, for each of the three other fields: of two states, and so no fact of a watch (d).

    // row I ..: row I of the C, whole; an error leaves the rows as they were.
    #[tactic(auto, unfolding(crate::specs::Lendings::RowSet, crate::specs::Lendings::row_there))]
    pub fn set_row(&mut self, at: u32, row: Row) -> Result<(), Fault>
        ensures set { RowSet self.old.size at row self.old.rows.now self.new.rows.now result }
        ensures long { length self.new.rows.now ≡ length self.old.rows.now }
        ensures kept { (self.new.size ≡ self.old.size) × (self.new.cells.now ≡ self.old.cells.now) × (self.new.ends.now ≡ self.old.ends.now) }
        ensures same { SameLent self.old self.new }
    {
        if at >= self.size.rows {
            return Err(Fault::NoSuchRow);
        }
        let a = 25 * (self.size.rows as usize);
        flat::put(&mut self.rows[..a], at, row);
        Ok(())
    }

    // cell I WORD: cell I of the N; an error leaves the cells as they were.
    #[tactic(auto, unfolding(crate::specs::Lendings::CellSet, crate::specs::Lendings::cell_there))]
    pub fn set_cell(&mut self, at: u32, word: u32) -> Result<(), Fault>
        ensures set { CellSet self.old.size at word self.old.cells.now self.new.cells.now result }
        ensures long { length self.new.cells.now ≡ length self.old.cells.now }
        ensures kept { (self.new.size ≡ self.old.size) × (self.new.rows.now ≡ self.old.rows.now) × (self.new.ends.now ≡ self.old.ends.now) }
        ensures same { SameLent self.old self.new }
    {
        if at >= self.size.cells {
            return Err(Fault::NoSuchCell);
        }
        self.cells[at as usize] = word;
        Ok(())
    }

    // ends FIRST LAST FREE, by a variable: the borrow checker takes no array that is written out there.
    pub fn set_ends(&mut self, first: u32, last: u32, free: u32)
        ensures set { self.new.ends.now ≡ first ∷ last ∷ free ∷ [] }
        ensures kept { (self.new.size ≡ self.old.size) × (self.new.rows.now ≡ self.old.rows.now) × (self.new.cells.now ≡ self.old.cells.now) }
        ensures same { SameLent self.old self.new }
    {
        let three = [first, last, free];
        *self.ends = three;
    }

    // An end that is none is the largest u32, as it is lent (a).
    pub fn no_ends(&mut self)
        ensures set { self.new.ends.now ≡ no_ends }
        ensures kept { (self.new.size ≡ self.old.size) × (self.new.rows.now ≡ self.old.rows.now) × (self.new.cells.now ≡ self.old.cells.now) }
        ensures same { SameLent self.old self.new }
    {
        let n = scans::no_row();
        self.set_ends(n, n, n);
    }

    // One of the four lines; `key` is the row's. An error leaves all as it was. Each arm stores what its line holds (d).
    #[tactic(auto, using(crate::proofs::Writing::applied_lend, crate::proofs::Writing::applied_row, crate::proofs::Writing::applied_cell, crate::proofs::Writing::applied_ends))]
    pub fn apply(&mut self, asked: Change, key: Key) -> Result<(), Fault>
        requires { Room self.old.rows.now self.old.cells.now }
        ensures applied { Applied asked key.bytes self.old.size self.old.rows.now self.old.cells.now self.old.ends.now self.new.size self.new.rows.now self.new.cells.now self.new.ends.now result }
        ensures room { Room self.new.rows.now self.new.cells.now }
        ensures same { SameLent self.old self.new }
    {
        match asked {
            Change::Lend { rows, cells } => self.lend(rows, cells),
            Change::Row {
                at,
                part,
                prev,
                next,
            } => self.set_row(at, crate::row_of(key, part, prev, next)),
            Change::Cell { at, word } => self.set_cell(at, word),
            Change::Ends { first, last, free } => {
                self.set_ends(first, last, free);
                Ok(())
            }
        }
    }

    // The words of the C rows, and the N cells, to read. A call takes rows, cells and ends at once, which methods of `&mut self` do not lend, and
    // `set_row` alone would need one method more: both cut by hand (d).
    pub fn rows_in_use(&self) -> &[u64]
        ensures { result.now ≡ take (25 * self.now.size.rows) self.now.rows.now }
    {
        &self.rows[..25 * (self.size.rows as usize)]
    }

    pub fn cells_in_use(&self) -> &[u32]
        ensures { result.now ≡ take self.now.size.cells self.now.cells.now }
    {
        &self.cells[..self.size.cells as usize]
    }

    pub fn digest(&self) -> u64
        ensures { result ≡ digest_of (lent_to self.now.size self.now.rows.now self.now.cells.now self.now.ends.now) }
    {
        digest::of_all(
            self.size.rows,
            self.rows_in_use(),
            self.cells_in_use(),
            self.ends,
        )
    }
}
