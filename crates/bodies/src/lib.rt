// What a call does to the body of one row: the part that it gets, by value, and its cells in those of all rows.
#![tactic(auto)]

ghost use Rattle.std.specs.Prelude.{◌≡◌, ◌+◌, ◌*◌, ◌≤◌, length, take, drop, replicate};
ghost use Rattle.std.proofs.lemmas.List.Edits.{sets};
ghost use Rattle.cells.specs.Cells.{empty_word};
ghost use Rattle.heard.specs.Heard.{width, empty_cells};
ghost use Rattle.heard.specs.Answers.{counting_is};
ghost use Rattle.receiver.specs.Calls as calls;
ghost use Rattle.bodies.specs.Bodies.{claim_part};

use heard::{Claiming, Counting, Heard};
use near_field::Judgment;
use receiver::Part;

// ---- one row's cells, in those of all rows

// The cells of all rows are lent as one slice (a), and i is a row. Each call of `lent` does one of these once: a struct of both, with the bound,
// would be made for it (d).

// Neither this nor `end_of` is one with that of `flat`: one line each, and a common one would be a crate for a product (d).
fn start_of(i: u32) -> usize
    ensures { result ≡ width * i }
{
    3344 * (i as usize)
}

fn end_of(i: u32) -> usize
    ensures { result ≡ width * i + width }
{
    3344 * (i as usize) + 3344
}

// Row i's cells become empty.
#[tactic(auto, using(crate::proofs::Laws::emptied))]
pub fn empty(cells: &mut [u32], i: u32)
    requires { width * i + width ≤ length cells.old }
    ensures { cells.new ≡ sets cells.old (width * i) empty_cells }
{
    let a = start_of(i);
    let z = end_of(i);
    heard::empty(&mut cells[a..z]);
}

pub fn fresh_cells(cells: &mut [u32])
    ensures { cells.new ≡ replicate (length cells.old) empty_word }
{
    heard::empty(cells);
}

// A position is counted in row i's cells.
#[tactic(auto, using(crate::proofs::Laws::counted))]
pub fn count_in(cells: &mut [u32], i: u32, c: Counting)
    requires { width * i + width ≤ length cells.old }
    ensures { cells.new ≡ sets cells.old (width * i) (counting_is c (take width (drop (width * i) cells.old))) }
{
    let a = start_of(i);
    let z = end_of(i);
    heard::count(&mut cells[a..z], c);
}

// Row i is judged, which has heard so much; the call's two words come as C gives them (a).
#[tactic(auto, using(crate::proofs::Laws::judge_fits))]
pub fn judge_cells(cells: &[u32], i: u32, heard: Heard, now_ms: u64, aircraft: u64) -> Judgment
    requires { width * i + width ≤ length cells.now }
    ensures { result ≡ calls.judging_of heard (take width (drop (width * i) cells.now)) now_ms aircraft }
{
    let a = start_of(i);
    let z = end_of(i);
    judge::judge(
        heard.site,
        heard.even,
        heard.odd,
        &cells[a..z],
        now_ms,
        aircraft,
    )
}

// ---- one row's part

// A move ends the verdict's run.
pub fn claim_part(part: Part, c: Claiming) -> Part
    ensures { result ≡ claim_part part c }
{
    Part {
        heard: c.heard,
        verdict: if c.moved {
            verdicts::ended(part.verdict)
        } else {
            part.verdict
        },
        ..part
    }
}

// The judgment and its clock are kept.
pub fn judged_part(part: Part, now_ms: u64, j: Judgment) -> Part
    ensures { result ≡ calls.judged_part part now_ms j }
{
    Part {
        verdict: verdicts::judged_next(part.verdict, j),
        judged_ms: Some(now_ms),
        ..part
    }
}
