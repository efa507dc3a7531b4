// The line `turn NEXT K ROOM`: a tick of the turn keeper on the watch that is lent, with a list of ROOM keys of its own, and its answer as text.
#![tactic(auto)]

ghost use Rattle.std.specs.Prelude.{◌≡◌, ◌*◌, Ok};
ghost use Rattle.rows.specs.Read.{form};
ghost use Rattle.turns.specs.Turn.{turn_on};
ghost use Rattle.lending.specs.Lendings.{lent_to};
ghost use Rattle.print.specs.Print.{SameBuffer, Adds};
ghost use Rattle.rounds.specs.Rounds.{keys_text, turned_text, served, turn_text, line_text};

use answers::put::{put_key, put_no, put_number};
use grammar::Line;
use lending::Watch;
use print::Text;
use table::Refusal;
use turns::Turned;

// ---- the tick

fn list_bytes(room: u32) -> usize
    ensures { result ≡ 32 * served room }
{
    32 * (room.min(64) as usize)
}

// A tick's words come one by one, as `turns` takes them from C (a).
fn tick(w: &Watch<'_>, next: u32, k: u32, list: &mut [u8]) -> Result<Turned, Refusal>
    ensures { record { answer = result; list = list.new } ≡ turn_on form (lent_to w.now.size w.now.rows.now w.now.cells.now w.now.ends.now) next k list.old }
{
    turns::turn(w.rows_in_use(), w.cells_in_use(), w.ends, next, k, list)
}

// ---- its answer

// The first keys of a list, which is lent with more room than a tick fills (a). The last key may be cut short, and `put_key` puts 0 for what is missing: arrays of 32 would drop it (d).
// Here and below a text and what is put into it stay two (d).
#[tactic(auto, using(crate::proofs::Writing::keys_none, crate::proofs::Writing::keys_on))]
fn put_keys(to: &mut Text<'_>, list: &[u8], count: u32)
    ensures { Adds to.old (keys_text count list.now) to.new }
{
    for i in 0..count {
        to.put(b" ");
        put_key(to, fields::part(list, 32 * (i as usize), list.len()));
    }
}

#[tactic(auto, using(crate::proofs::Writing::named_put))]
fn put_named(to: &mut Text<'_>, list: &[u8], t: Turned)
    ensures { Adds to.old (turned_text (Ok t) list.now) to.new }
{
    put_number(to, b"ok ", u64::from(t.count));
    put_number(to, b" ", u64::from(t.next));
    put_keys(to, list, t.count);
    to.put(b"\n");
}

// Each arm puts what its case holds (d).
fn put_turned(to: &mut Text<'_>, list: &[u8], t: Result<Turned, Refusal>)
    ensures { Adds to.old (turned_text t list.now) to.new }
{
    match t {
        Ok(turned) => put_named(to, list, turned),
        Err(r) => put_no(to, r),
    }
}

// ---- the line

fn put_turn(w: &Watch<'_>, next: u32, k: u32, room: u32, to: &mut Text<'_>)
    ensures { Adds to.old (turn_text (lent_to w.now.size w.now.rows.now w.now.cells.now w.now.ends.now) next k room) to.new }
{
    // No heap: room for the longest list, and the list is its front.
    let mut keys = [0u8; 2048];
    let m = list_bytes(room);
    let list = &mut keys[..m];
    let t = tick(w, next, k, list);
    put_turned(to, list, t);
}

// Puts the answer to a tick, and nothing for any other line: these are named, so that a new line is asked for here (d).
#[tactic(auto, using(answers::proofs::Writing::adds_none, answers::proofs::Writing::adds_there))]
pub fn put_line(w: &Watch<'_>, asked: Line, to: &mut Text<'_>)
    ensures buffer { SameBuffer to.old to.new }
    ensures put { Adds to.old (line_text (lent_to w.now.size w.now.rows.now w.now.cells.now w.now.ends.now) asked) to.new }
{
    match asked {
        Line::Turn { next, k, room } => put_turn(w, next, k, room, to),
        Line::Watch { .. }
        | Line::Call(_)
        | Line::Digest
        | Line::Place { .. }
        | Line::Same { .. }
        | Line::Horizon { .. }
        | Line::Bucket(_)
        | Line::Bit { .. }
        | Line::Change(_) => {}
    }
}
