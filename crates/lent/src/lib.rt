// The siting watch: seven calls over rows, cells and ends that the caller lends, once for whatever rows are lent as (`chains::Lent`): plain numbers, as C and Rust
// can lend them, or records. Nothing is asked of what is lent: what is no watch in order is refused, and a refusal changes nothing. A call looks at each row once
// (crate `chains`), asks its questions in turn, the first no to which ends it, and then stores. Rows, cells, ends and a call's words come one by one, as C
// hands them over: a struct made for one call would have to say at its end that it still lends the same three (d). What a call leaves of the rows (`left`) relates two states of them, so that each call says it: no value holds it (d).
// An end that is none is the largest u32, as in what is lent (a).
#![tactic(auto)]

ghost use Rattle.std.specs.Prelude.{◌≡◌, ◌+◌, ◌*◌, ◌≤◌, get_or, length};
ghost use Rattle.std.proofs.lemmas.List.Edits.{sets};
ghost use Rattle.heard.specs.Heard.{width, empty_cells};
ghost use Rattle.receiver.specs.Calls as calls;
ghost use Rattle.rows.specs.Read.{watch_is};
ghost use Rattle.scans.specs.Ends.{ends_of, ends_is};
ghost use Rattle.rows.specs.Links.{released_rows, released_ends};
ghost use Rattle.moves.specs.Answers.{answer_is, outcome};
ghost use Rattle.lent.specs.Freed.{freed_at};

use chains::{Chains, Lent};
use heard::Position;
use moves::{Answer, Word};
use receiver::Part;
use scans::{Ends, Key};
use sites::Site;
use table::Refusal;

// ---- check

// What is held of the key's site. This marks nothing.
pub fn check<W: Lent>(rows: &mut [W], cells: &mut [u32], ends: &mut [u32; 3], key: Key) -> Answer
    ensures { (outcome result (W.rows_in rows.new) cells.new ends.new ≡ calls.call_on (watch_is (W.rows_in rows.old) cells.old ends.old) key.bytes calls.check) × W.left (answer_is result) rows.old rows.new }
{
    let e = Ends::from(*ends);
    let i = chains::look_up(rows, cells.len(), e, key)?;
    moves::check_answer(W::get(rows, i).part.verdict)
}

// ---- take-out and drop-oldest

// Row i is freed, and its key answered.
fn free<W: Lent>(rows: &mut [W], cells: &mut [u32], ends: &mut [u32; 3], e: Ends, i: u32) -> Answer
    requires { width * i + width ≤ length cells.old }
    ensures { (result ≡ freed_at (W.rows_in rows.old) i) × (W.rows_in rows.new ≡ released_rows (W.rows_in rows.old) e i) × (cells.new ≡ sets cells.old (width * i) empty_cells) × (ends_is ends.new ≡ ends_of (released_ends (W.rows_in rows.old) e i)) }
{
    let key = W::get(rows, i).key;
    let mut chains = Chains { rows, ends: e };
    chains.release(i);
    bodies::empty(cells, i);
    *ends = chains.ends.into();
    Ok(Word::Freed(key))
}

// The key's row is freed.
pub fn take_out<W: Lent>(rows: &mut [W], cells: &mut [u32], ends: &mut [u32; 3], key: Key) -> Answer
    ensures { (outcome result (W.rows_in rows.new) cells.new ends.new ≡ calls.call_on (watch_is (W.rows_in rows.old) cells.old ends.old) key.bytes calls.take_out) × W.left (answer_is result) rows.old rows.new }
{
    let e = Ends::from(*ends);
    let i = chains::look_up(rows, cells.len(), e, key)?;
    free(rows, cells, ends, e, i)
}

// The least recently used row is freed.
pub fn drop_oldest<W: Lent>(rows: &mut [W], cells: &mut [u32], ends: &mut [u32; 3]) -> Answer
    ensures { (outcome result (W.rows_in rows.new) cells.new ends.new ≡ calls.drop_oldest (watch_is (W.rows_in rows.old) cells.old ends.old)) × W.left (answer_is result) rows.old rows.new }
{
    let e = Ends::from(*ends);
    let look = chains::look_up(rows, cells.len(), e, scans::zero_key());
    scans::claimable(look)?;
    if scans::is_none(e.head) {
        return Err(Refusal::NotHeld);
    }
    free(rows, cells, ends, e, e.head)
}

// ---- judging

// The key's claim is judged by what was heard. This marks nothing.
pub fn judging<W: Lent>(
    rows: &mut [W],
    cells: &mut [u32],
    ends: &mut [u32; 3],
    key: Key,
    now_ms: u64,
    aircraft: u64,
) -> Answer
    ensures { (outcome result (W.rows_in rows.new) cells.new ends.new ≡ calls.call_on (watch_is (W.rows_in rows.old) cells.old ends.old) key.bytes (calls.judging now_ms aircraft)) × W.left (answer_is result) rows.old rows.new }
{
    let e = Ends::from(*ends);
    let i = chains::look_up(rows, cells.len(), e, key)?;
    let part = W::get(rows, i).part;
    if verdicts::too_soon(part.judged_ms, now_ms) {
        return Err(Refusal::TooSoon);
    }
    let j = bodies::judge_cells(cells, i, part.heard, now_ms, aircraft);
    W::set_part(rows, i, bodies::judged_part(part, now_ms, j));
    Ok(Word::Judged(j))
}

// ---- position

// The key's receiver has heard an aircraft.
pub fn position<W: Lent>(
    rows: &mut [W],
    cells: &mut [u32],
    ends: &mut [u32; 3],
    key: Key,
    p: Position,
) -> Answer
    ensures { (outcome result (W.rows_in rows.new) cells.new ends.new ≡ calls.call_on (watch_is (W.rows_in rows.old) cells.old ends.old) key.bytes (calls.position p)) × W.left (answer_is result) rows.old rows.new }
{
    let e = Ends::from(*ends);
    let i = chains::look_up(rows, cells.len(), e, key)?;
    let part = W::get(rows, i).part;
    let c = heard::hear(part.heard, p)?;
    let mut chains = Chains { rows, ends: e };
    chains.mark(
        i,
        Part {
            heard: c.heard,
            ..part
        },
    );
    bodies::count_in(cells, i, c);
    *ends = chains.ends.into();
    Ok(Word::Done)
}

// ---- claim

// The key's site is claimed, or none. A row made for the key, or moved, gets empty cells.
pub fn claim<W: Lent>(
    rows: &mut [W],
    cells: &mut [u32],
    ends: &mut [u32; 3],
    key: Key,
    site: Option<Site>,
) -> Answer
    ensures { (outcome result (W.rows_in rows.new) cells.new ends.new ≡ calls.call_on (watch_is (W.rows_in rows.old) cells.old ends.old) key.bytes (calls.claim site)) × W.left (answer_is result) rows.old rows.new }
{
    let e = Ends::from(*ends);
    let look = chains::look_up(rows, cells.len(), e, key);
    let at = scans::claimable(look)?;
    let part = chains::part_at(rows, at);
    let c = heard::set_site(part.heard, site)?;
    let mut chains = Chains { rows, ends: e };
    let seat = chains.insert_active(at, key, bodies::claim_part(part, c));
    if seat.made || c.moved {
        bodies::empty(cells, seat.at);
    }
    *ends = chains.ends.into();
    Ok(Word::Generation {
        generation: c.heard.generation,
        pushed: seat.pushed,
    })
}

// ---- fresh

// Every row free and as fresh, whatever was there.
pub fn fresh<W: Lent>(rows: &mut [W], cells: &mut [u32], ends: &mut [u32; 3]) -> Answer
    ensures { (outcome result (W.rows_in rows.new) cells.new ends.new ≡ calls.fresh_call (watch_is (W.rows_in rows.old) cells.old ends.old)) × W.left (answer_is result) rows.old rows.new }
{
    let n = W::count(rows);
    if !rows::sizes_fit(n, cells.len()) {
        return Err(Refusal::Sizes);
    }
    chains::fresh_rows(rows, n);
    bodies::fresh_cells(cells);
    *ends = scans::fresh_ends().into();
    Ok(Word::Done)
}
