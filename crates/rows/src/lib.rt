// The rows of a lent watch in their order of use: a chain of used rows, the least recently used first, and a chain of free rows. Here are
// the row and the steps on it, by value; crate `scans` has the chains' ends, and crate `chains` reads rows from what is lent and stores them there.
#![tactic(auto)]

ghost use Rattle.std.specs.Prelude.{◌≡◌};
ghost use Rattle.rows.specs.Read.{fits};
ghost use Rattle.rows.specs.Links.{blank, unmade, made_row, kept_seat, made_seat, fresh_of};
ghost use Rattle.rows.specs.Search.{sizes_of};

use heard::Heard;
use receiver::Part;
use scans::{Ends, Key, Links, is_none, no_row};
use sites::Site;

// Links are row numbers, or none (the largest u32), as they are lent (a): the rows before and after in the used chain; a free row's `next` is the free chain's.
#[derive(Clone, Copy)]
pub struct Row {
    pub key: [u8; 32],
    pub part: Part,
    pub prev: u32,
    pub next: u32,
}

// 01 names the constant among its forms (a): so `heard::unheard()`, which is no constant, cannot stand in it.
impl Row {
    pub const UNMADE: Row = Row {
        key: [0u8; 32],
        part: Part {
            heard: Heard {
                site: None,
                generation: 0,
                even: None,
                odd: None,
            },
            verdict: None,
            judged_ms: None,
        },
        prev: 4294967295,
        next: 4294967295,
    };
}

impl From<Row> for Links {
    ghost from_gives = { λ row links. links ≡ record { prev = row.prev; next = row.next } };

    fn from(row: Row) -> Links {
        Links {
            prev: row.prev,
            next: row.next,
        }
    }
}

// Question 1: n rows with m cells.
#[tactic(auto, unfolding(table::specs::Questions::most, heard::specs::Heard::width))]
pub fn sizes_fit(n: usize, m: usize) -> bool
    ensures { result ≡ sizes_of n m }
{
    1 <= n && n <= 4096 && m == 3344 * n
}

// ---- one row, by value

pub fn unmade() -> Row
    ensures { result ≡ blank }
{
    Row::UNMADE
}

// A free row, followed by n.
pub fn unmade_row(n: u32) -> Row
    ensures { result ≡ unmade n }
{
    Row {
        next: n,
        ..unmade()
    }
}

pub fn made_row(old: Row, key: Key, part: Part) -> Row
    ensures { result ≡ made_row old key part }
{
    let bytes = key.bytes;
    Row {
        key: bytes,
        part,
        ..old
    }
}

// ---- a claim's row

// The ends after a claim, its row's number, whether the row was made for it, and the key that it pushed out, if any. Not an enum of kept and made: a claim asks
// only whether to empty cells, and answers what was pushed (d).
#[derive(Clone, Copy)]
pub struct Seat {
    pub ends: Ends,
    pub at: u32,
    pub made: bool,
    pub pushed: Option<[u8; 32]>,
}

pub fn kept_seat(d: Ends, i: u32) -> Seat
    ensures { result ≡ kept_seat d i }
{
    Seat {
        ends: d,
        at: i,
        made: false,
        pushed: None,
    }
}

// With no row free in e, the oldest was pushed out.
pub fn made_seat(e: Ends, old: Row, d: Ends) -> Seat
    ensures { result ≡ made_seat e old d }
{
    Seat {
        ends: d,
        at: d.tail,
        made: true,
        pushed: is_none(e.free).then_some(old.key),
    }
}

// ---- a row in the scan of a chain

// Question 2, of one row: the held site is within degrees, and the held distance a step of 5 from 5 to 800.
pub fn part_fits(part: Part) -> bool
    ensures { result ≡ fits part }
{
    heard::fits(part.heard.site) && verdicts::fits(part.verdict)
}

// ---- fresh rows

// Row i of n.
pub fn fresh_row(n: usize, i: usize) -> Row
    ensures { result ≡ fresh_of n i }
{
    if i < 4095 && i + 1 != n {
        return unmade_row((i + 1) as u32);
    }
    unmade_row(no_row())
}
