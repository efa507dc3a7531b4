// The order of use over lent rows: the steps of crate `rows` on the chains, and questions 1 to 3, once for whatever the rows are lent as. That is records (01, "the
// rows are lent as a slice of records"), or the plain numbers of crate `flat`. `Lent` says what a lent slice has to offer, and what its rows are.
// A link or an end that is none is the largest u32, as in the words that are lent (a).
#![tactic(auto)]

mod steps;

ghost use Rattle.std.specs.Prelude.{◌≡◌, ℕ, ◌≤◌, ◌<◌, List, leb, length, set, get_or, refl};
ghost use Rattle.table.specs.Machine.{Answer};
ghost use Rattle.receiver.specs.Calls.{Out};
ghost use Rattle.rows.specs.Read.{Looked};
ghost use Rattle.rows.specs.Links.{blank, with_links, nexted, preved, part_at, parted_rows, fresh_from};
ghost use Rattle.rows.specs.declared.Row.{Row};
ghost use Rattle.rows.specs.Search.{step_of, scanned};
ghost use Rattle.flat.specs.Table.{rows_of, Left};
ghost use Rattle.glances.specs.Glances.{links_of, glance_of};
ghost use Rattle.packing.specs.Words.{key_of};
ghost use Rattle.chains.specs.Lent.{LeftLaws, LeftRows, same_rows, rows_left, words_left, few_numbers};

use glances::Glance;
use receiver::Part;
use rows::Row;
use scans::{Cursor, Ends, Key, Links};
pub use steps::Chains;
use table::Refusal;

// ---- what rows are lent as

// A key that is sought: its bytes, and the four words of them.
#[derive(Clone, Copy)]
pub struct Sought {
    pub bytes: [u8; 32],
    pub words: [u64; 4],
    ghost same: { key_of words ≡ bytes },
}

impl Sought {
    fn of(key: Key) -> Sought
        ensures { result.bytes ≡ key.bytes }
    {
        let bytes = key.bytes;
        let words = glances::words_of(bytes);
        Sought {
            bytes: bytes,
            words: words,
        }
    }
}

// The element of a lent slice. A link that is no row's number reads as the unmade row, and a store there changes nothing. Each method is handed the slice and a place
// in it, and each form of rows says what it does by the same clause: they stand once, here (d).
pub trait Lent: Copy {
    // the rows of a slice
    ghost rows_in: { List Self → List Row };

    // how many rows can be made, one after another
    ghost can_make: { ℕ → Type 0 };

    // what a call leaves, by its answer
    ghost left: { Answer Out → List Self → List Self → Type 0 };

    fn count(rows: &[Self]) -> usize
        ensures { result ≡ length (rows_in rows.now) };

    // Is this no row's number?
    fn outside(rows: &[Self], at: u32) -> bool
        ensures { result ≡ leb (length (rows_in rows.now)) at };

    fn get(rows: &[Self], at: u32) -> Row
        ensures { result ≡ get_or (rows_in rows.now) at blank };

    fn put(rows: &mut [Self], at: u32, row: Row)
        ensures { rows_in rows.new ≡ set (rows_in rows.old) at row };

    // By a usize, as a loop counts them, of a row that is there: `put` would take a conversion and a test for each (d).
    fn make(rows: &mut [Self], i: usize, row: Row)
        requires { can_make (length (rows_in rows.old)) × (i < length (rows_in rows.old)) }
        ensures { rows_in rows.new ≡ set (rows_in rows.old) i row };

    fn links_at(rows: &[Self], at: u32) -> Links
        ensures { result ≡ links_of (get_or (rows_in rows.now) at blank) };

    fn set_links(rows: &mut [Self], at: u32, links: Links)
        ensures { rows_in rows.new ≡ set (rows_in rows.old) at (with_links (get_or (rows_in rows.old) at blank) links.prev links.next) };

    // This and `set_prev` are no twins, here and in each form of rows: no parameter names a field (d).
    fn set_next(rows: &mut [Self], at: u32, n: u32)
        ensures { rows_in rows.new ≡ nexted (rows_in rows.old) at n };

    fn set_prev(rows: &mut [Self], at: u32, n: u32)
        ensures { rows_in rows.new ≡ preved (rows_in rows.old) at n };

    fn set_part(rows: &mut [Self], at: u32, part: Part)
        ensures { rows_in rows.new ≡ parted_rows (rows_in rows.old) at part };

    // What a step along a chain asks of a row.
    fn look_at(rows: &[Self], at: u32, key: &Sought) -> Glance
        requires { at < length (rows_in rows.now) }
        ensures { result ≡ glance_of key.now.bytes (get_or (rows_in rows.now) at blank) };

    ghost makes: { (n : ℕ) → n ≤ 4096 → can_make n };

    ghost leaves: { LeftLaws rows_in left };
}

impl Lent for Row {
    ghost rows_in = { same_rows };

    ghost can_make = { λ n. n ≡ n };

    ghost left = { LeftRows };

    fn count(rows: &[Row]) -> usize {
        rows.len()
    }

    fn outside(rows: &[Row], at: u32) -> bool {
        rows.len() <= at as usize
    }

    fn get(rows: &[Row], at: u32) -> Row {
        let i = at as usize;
        if i < rows.len() {
            rows[i]
        } else {
            rows::unmade()
        }
    }

    fn put(rows: &mut [Row], at: u32, row: Row) {
        let i = at as usize;
        if i < rows.len() {
            rows[i] = row;
        }
    }

    fn make(rows: &mut [Row], i: usize, row: Row) {
        rows[i] = row;
    }

    fn links_at(rows: &[Row], at: u32) -> Links {
        Links::from(Row::get(rows, at))
    }

    fn set_links(rows: &mut [Row], at: u32, links: Links) {
        let row = Row::get(rows, at);
        let Links { prev, next } = links;
        Row::put(rows, at, Row { prev, next, ..row });
    }

    fn set_next(rows: &mut [Row], at: u32, n: u32) {
        let row = Row::get(rows, at);
        Row::put(rows, at, Row { next: n, ..row });
    }

    fn set_prev(rows: &mut [Row], at: u32, n: u32) {
        let row = Row::get(rows, at);
        Row::put(rows, at, Row { prev: n, ..row });
    }

    fn set_part(rows: &mut [Row], at: u32, part: Part) {
        let row = Row::get(rows, at);
        Row::put(rows, at, Row { part, ..row });
    }

    // No `From`: a glance is of a row and a key (d).
    fn look_at(rows: &[Row], at: u32, key: &Sought) -> Glance {
        let r = rows[at as usize];
        let bytes = key.bytes;
        Glance {
            prev: r.prev,
            next: r.next,
            sound: rows::part_fits(r.part),
            same: bytes == r.key,
        }
    }

    ghost makes = { λ n few. refl };

    ghost leaves = { rows_left };
}

// The functions of crates `flat` and `glances` under the trait's names: those crates lie below the trait (d).
impl Lent for u64 {
    ghost rows_in = { rows_of };

    ghost can_make = { λ n. n ≤ 4294967296 };

    ghost left = { Left };

    fn count(rows: &[u64]) -> usize {
        flat::count(rows)
    }

    fn outside(rows: &[u64], at: u32) -> bool {
        flat::outside(rows, at)
    }

    fn get(rows: &[u64], at: u32) -> Row {
        flat::get(rows, at)
    }

    fn put(rows: &mut [u64], at: u32, row: Row) {
        flat::put(rows, at, row);
    }

    fn make(rows: &mut [u64], i: usize, row: Row) {
        flat::put(rows, i as u32, row);
    }

    fn links_at(rows: &[u64], at: u32) -> Links {
        glances::links_at(rows, at)
    }

    fn set_links(rows: &mut [u64], at: u32, links: Links) {
        glances::set_links(rows, at, links);
    }

    fn set_next(rows: &mut [u64], at: u32, n: u32) {
        glances::set_next(rows, at, n);
    }

    fn set_prev(rows: &mut [u64], at: u32, n: u32) {
        glances::set_prev(rows, at, n);
    }

    fn set_part(rows: &mut [u64], at: u32, part: Part) {
        glances::set_part(rows, at, part);
    }

    fn look_at(rows: &[u64], at: u32, key: &Sought) -> Glance {
        glances::look_at(rows, at, &key.words)
    }

    ghost makes = { few_numbers };

    ghost leaves = { words_left };
}

// ---- questions 1 to 3

// A step along a chain, by what was seen of the row.
fn step_by(s: Cursor, g: Glance) -> Cursor
    ensures { (row : Row) → g ≡ glance_of s.key row → result ≡ step_of s row }
{
    if s.left == 0 {
        return s;
    }
    Cursor {
        at: g.next,
        prev: s.at,
        left: s.left - 1,
        fits: scans::back_fits(s.back, g.prev, s.prev),
        sound: s.sound && g.sound,
        found: s.found.or(g.same.then_some(s.at)),
        ..s
    }
}

// Along a chain of n rows: `count` divides, so n is asked once (d).
fn scan<W: Lent>(rows: &[W], n: usize, s: Cursor, key: &Sought) -> Cursor
    requires { (n ≡ length (W.rows_in rows.now)) × (s.key ≡ key.now.bytes) }
    ensures { result ≡ scanned (W.rows_in rows.now) s }
{
    let mut c = s;
    while scans::more(c, n) {
        let g = W::look_at(rows, c.at, key);
        c = step_by(c, g);
    }
    c
}

// Questions 1 to 3 of the rows with m cells: the row with the key. Each row is read once, and no cell is: so m comes without them (d).
pub fn look_up<W: Lent>(rows: &[W], m: usize, e: Ends, key: Key) -> Result<u32, Refusal>
    ensures { Looked (W.rows_in rows.now) m e key result }
{
    let n = W::count(rows);
    if !rows::sizes_fit(n, m) {
        return Err(Refusal::Sizes);
    }
    let k = Sought::of(key);
    let used = scan(rows, n, scans::used_start(n, e, key), &k);
    let free = scan(rows, n, scans::free_start(n, e, key), &k);
    scans::look_of(n, e, used, free)
}

// What a claim goes on from: the part of the row that has the key, or a fresh one.
pub fn part_at<W: Lent>(rows: &[W], at: Option<u32>) -> Part
    ensures { result ≡ part_at (W.rows_in rows.now) at }
{
    match at {
        Some(i) => W::get(rows, i).part,
        None => rows::unmade().part,
    }
}

// ---- fresh rows

// Every row becomes fresh, row i of n, in the free chain in ascending number.
pub fn fresh_rows<W: Lent>(rows: &mut [W], n: usize)
    requires { W.can_make (length (W.rows_in rows.old)) }
    ensures { W.rows_in rows.new ≡ fresh_from n 0 (length (W.rows_in rows.old)) }
{
    let there = W::count(rows);
    for i in 0..there {
        W::make(rows, i, rows::fresh_row(n, i));
    }
}
