// A list of calls, line by line: what a line is answered, and what it does to the watch that is lent. An answer and its text stand in `answers`.
#![tactic(auto)]

mod run;
pub mod single;

ghost use Rattle.std.specs.Prelude.{◌≡◌, ◌≤◌, length};
ghost use Rattle.lending.specs.Lendings.{Room};
ghost use Rattle.lending.specs.Same.{SameLent};
ghost use Rattle.session.specs.Watches.{sized_of, Opened, size_for, Watched, Written, Ran, Heard};

use answers::Reply;
use grammar::{Call, Change, Line, Said};
use lending::{Size, Watch};
use moves::Answer;
use readers::Fault;
use scans::Key;

pub fn sized(c: u32) -> Size
    requires { c ≤ 64 }
    ensures { result ≡ sized_of c }
{
    Size {
        rows: c,
        cells: 3344 * c,
    }
}

// A fresh watch of C rows; an error leaves all as it was. Clauses here, in `run` and in `calls` name each part of what is lent, before and after: 01's watch
// is made of the first words and cells, and of what lies behind them a clause says that it stays (d).
#[tactic(auto, using(crate::proofs::Watches::sized_within), unfolding(crate::specs::Watches::Opened))]
pub fn open(w: &mut Watch<'_>, c: u32) -> Result<Answer, Fault>
    requires { Room w.old.rows.now w.old.cells.now }
    ensures opened { Opened c w.old.rows.now w.old.cells.now w.old.ends.now w.new.rows.now w.new.cells.now w.new.ends.now result }
    ensures long { (length w.new.rows.now ≡ length w.old.rows.now) × (length w.new.cells.now ≡ length w.old.cells.now) }
    ensures size { w.new.size ≡ size_for result c w.old.size }
    ensures same { SameLent w.old w.new }
{
    if c > 64 {
        return Err(Fault::TooManyRows);
    }
    w.size = sized(c);
    w.no_ends();
    Ok(run::call_in(w, Call::Fresh, scans::zero_key()))
}

// watch C: a fresh watch of C rows.
pub fn watch(w: &mut Watch<'_>, c: u32) -> Result<Option<Reply>, Fault>
    requires { Room w.old.rows.now w.old.cells.now }
    ensures comes { Watched c w.old.size w.old.rows.now w.old.cells.now w.old.ends.now w.new.size w.new.rows.now w.new.cells.now w.new.ends.now result }
    ensures room { Room w.new.rows.now w.new.cells.now }
    ensures same { SameLent w.old w.new }
{
    let _ = open(w, c)?;
    Ok(None)
}

// A line that writes the watch.
fn write(w: &mut Watch<'_>, asked: Change, key: Key) -> Result<Option<Reply>, Fault>
    requires { Room w.old.rows.now w.old.cells.now }
    ensures comes { Written asked key.bytes w.old.size w.old.rows.now w.old.cells.now w.old.ends.now w.new.size w.new.rows.now w.new.cells.now w.new.ends.now result }
    ensures room { Room w.new.rows.now w.new.cells.now }
    ensures same { SameLent w.old w.new }
{
    w.apply(asked, key)?;
    Ok(None)
}

// What a line comes to, with the key that it names. Each arm hands on what its case holds; the lines that need no watch are named, so that a new line is asked for here (d).
#[tactic(auto, unfolding(crate::specs::Watches::Ran))]
fn line(w: &mut Watch<'_>, asked: Line, key: Key) -> Result<Option<Reply>, Fault>
    requires { Room w.old.rows.now w.old.cells.now }
    ensures comes { Ran asked key.bytes w.old.size w.old.rows.now w.old.cells.now w.old.ends.now w.new.size w.new.rows.now w.new.cells.now w.new.ends.now result }
    ensures room { Room w.new.rows.now w.new.cells.now }
    ensures same { SameLent w.old w.new }
{
    match asked {
        Line::Call(c) => Ok(Some(Reply::Answered(run::call_in(w, c, key)))),
        Line::Watch { rows } => watch(w, rows),
        Line::Digest => Ok(Some(Reply::Digest(w.digest()))),
        Line::Change(m) => write(w, m, key),
        Line::Place { .. }
        | Line::Same { .. }
        | Line::Horizon { .. }
        | Line::Bucket(_)
        | Line::Bit { .. }
        | Line::Turn { .. } => Ok(single::answer(asked)),
    }
}

// What the bytes of a line ask for, answered; the watch stays within what is lent.
#[tactic(auto, unfolding(crate::specs::Watches::Heard))]
pub fn answer(w: &mut Watch<'_>, asked: Result<Option<Said>, Fault>) -> Result<Option<Reply>, Fault>
    requires { Room w.old.rows.now w.old.cells.now }
    ensures comes { Heard asked w.old.size w.old.rows.now w.old.cells.now w.old.ends.now w.new.size w.new.rows.now w.new.cells.now w.new.ends.now result }
    ensures room { Room w.new.rows.now w.new.cells.now }
    ensures same { SameLent w.old w.new }
{
    let Some(said) = asked? else {
        return Ok(None);
    };
    let key = said.key;
    line(w, said.line, Key { bytes: key })
}
