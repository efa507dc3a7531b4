// A watch in a lent piece of memory: its digest, and the lines that write it word by word, junk allowed. More is lent than is in
// use: n says how much of a slice is, and `at` which row or cell of it a line names (a).
#![tactic(auto)]

mod digest;
mod watch;

ghost use Rattle.std.specs.Prelude.{◌≡◌, ◌*◌, ◌≤◌, ◌++◌, length, drop, replicate};
ghost use Rattle.cells.specs.Cells.{empty_word};
ghost use Rattle.rows.specs.Links.{blank};
ghost use Rattle.flat.specs.Table.{rows_of};
ghost use Rattle.lending.specs.Lendings.{RowsBecome, lendable};

use readers::Fault;
use receiver::Part;
use rows::Row;
use scans::Key;
pub use watch::Watch;

// How many rows and cells the watch has.
#[derive(Clone, Copy)]
pub struct Size {
    pub rows: u32,
    pub cells: u32,
}

// ---- lend

// n is how many rows these are: `flat::count` answers a usize, which a u32, as a row's number is, need not hold. The clause would stay, as a bound (d).
fn unmake(rows: &mut [u64], n: u32)
    requires { n ≡ length (rows_of rows.old) }
    ensures { rows_of rows.new ≡ replicate n blank }
{
    for i in 0..n {
        flat::put(rows, i, rows::unmade());
    }
}

fn unmake_first(rows: &mut [u64], n: u32)
    requires { 25 * n ≤ length rows.old }
    ensures { RowsBecome n (replicate n blank) rows.old rows.new }
{
    let a = 25 * (n as usize);
    unmake(&mut rows[..a], n);
}

#[tactic(auto, using(crate::proofs::Writing::emptied_first))]
fn empty_first(cells: &mut [u32], n: u32)
    requires { n ≤ length cells.old }
    ensures { cells.new ≡ replicate n empty_word ++ drop n cells.old }
{
    heard::empty(&mut cells[..n as usize]);
}

#[tactic(auto, unfolding(crate::specs::Lendings::lendable))]
fn may_lend(c: u32, n: u32) -> Result<Size, Fault>
    ensures { result ≡ lendable c n }
{
    if c > 64 {
        return Err(Fault::TooManyRows);
    }
    if n > 214016 {
        return Err(Fault::TooManyCells);
    }
    Ok(Size { rows: c, cells: n })
}

// ---- row

fn row_of(key: Key, part: Part, prev: u32, next: u32) -> Row
    ensures { result ≡ record { key = key.bytes; part = part; prev = prev; next = next } }
{
    let k = key.bytes;
    Row {
        key: k,
        part,
        prev,
        next,
    }
}
