// The list, line by line, and the answers, by a large buffer.
ghost use Rattle.std.specs.Prelude.{◌≡◌, true, false};
ghost use Rattle.std.specs.Io.KnownBytes.{Appends};
ghost use Rattle.lines.specs.Streams.{held_by, sink_failed};
ghost use Rattle.lending.specs.Lendings.{Room, lent_to};
ghost use Rattle.lending.specs.Same.{SameLent};
ghost use Rattle.print.specs.Print.{SameBuffer, Adds};
ghost use Rattle.calls.specs.Inputs.{Came, number_of, written_of, tick_of, Answered};
ghost use Rattle.calls.specs.Turns.{held, Stepped, Told};
ghost use Rattle.calls.specs.Same.{SameList, SameOut};

use crate::output::Output;
use answers::Reply;
use grammar::Said;
use lending::Watch;
use lines::{Line, Lines};
use print::Text;
use readers::Fault;
use std::io::{Read, Write};

// What a line comes to, whose bytes ask for this.
#[tactic(auto, unfolding(crate::specs::Inputs::Came))]
fn tell(
    w: &mut Watch<'_>,
    line: Line,
    asked: Result<Option<Said>, Fault>,
) -> Result<Option<Reply>, Fault>
    requires { Room w.old.rows.now w.old.cells.now }
    ensures comes { Came line asked w.old.size w.old.rows.now w.old.cells.now w.old.ends.now w.new.size w.new.rows.now w.new.cells.now w.new.ends.now result }
    ensures room { Room w.new.rows.now w.new.cells.now }
    ensures same { SameLent w.old w.new }
{
    match line {
        Line::At { .. } => session::answer(w, asked),
        Line::TooLong => Err(Fault::TooLong),
        Line::Nothing => Ok(None),
    }
}

// How many lines were read, this one with them.
fn number_of(line: Line, lines: u64) -> u64
    ensures { result ≡ number_of line lines }
{
    match line {
        Line::At { .. } | Line::TooLong => lines.wrapping_add(1),
        Line::Nothing => lines,
    }
}

// Puts a tick's answer, which is the turn keeper's and leaves the watch as it is.
#[tactic(auto, using(answers::proofs::Writing::adds_none))]
fn tick(w: &Watch<'_>, asked: Result<Option<Said>, Fault>, to: &mut Text<'_>)
    ensures buffer { SameBuffer to.old to.new }
    ensures put { Adds to.old (tick_of (lent_to w.now.size w.now.rows.now w.now.cells.now w.now.ends.now) asked) to.new }
{
    match asked {
        Ok(Some(said)) => rounds::put_line(w, said.line, to),
        Ok(None) | Err(_) => {}
    }
}

// Runs a line, and puts its answer behind those that wait. The list lends the bytes meanwhile: here and below a struct of list, watch and
// output would be taken apart into the three for each line (d).
fn answer<W: Write>(w: &mut Watch<'_>, out: &mut Output<'_, W>, line: Line, bytes: &[u8])
    requires { Room w.old.rows.now w.old.cells.now }
    ensures answered { Answered line bytes.now out.old.lines w.old.size w.old.rows.now w.old.cells.now w.old.ends.now out.old.text.out.now out.old.text.n w.new.size w.new.rows.now w.new.cells.now w.new.ends.now out.new.text.out.now out.new.text.n }
    ensures lines { out.new.lines ≡ out.old.lines }
    ensures written { sink_failed out.new.to.now ≡ false → Appends (held_by W.contents out.old.to.now) (held_by W.contents out.new.to.now) (written_of out.old.text.out.now out.old.text.n) }
    ensures failed { sink_failed out.old.to.now ≡ true → out.new.to.now ≡ out.old.to.now }
    ensures room { Room w.new.rows.now w.new.cells.now }
    ensures same { SameLent w.old w.new × SameOut out.old out.new }
{
    let asked = grammar::read(bytes);
    let reply = tell(w, line, asked);
    out.room();
    answers::put_reply(&mut out.text, reply, out.lines, bytes);
    tick(w, asked, &mut out.text);
}

// Answers the next line, or reads more where no line is whole.
fn step<R: Read, W: Write>(list: &mut Lines<'_, R>, w: &mut Watch<'_>, out: &mut Output<'_, W>)
    requires { Room w.old.rows.now w.old.cells.now }
    ensures stepped { Stepped (held list.old w.old out.old) (held list.new w.new out.new) }
    ensures written { sink_failed out.new.to.now ≡ false → Appends (held_by W.contents out.old.to.now) (held_by W.contents out.new.to.now) (written_of out.old.text.out.now out.old.text.n) }
    ensures failed { sink_failed out.old.to.now ≡ true → out.new.to.now ≡ out.old.to.now }
    ensures room { Room w.new.rows.now w.new.cells.now }
    ensures same { SameList list.old list.new × SameLent w.old w.new × SameOut out.old out.new }
{
    let line = list.next_line();
    out.lines = number_of(line, out.lines);
    let bytes = list.bytes(line);
    answer(w, out, line, bytes);
}

// Before the first line there is a fresh watch of one row. A proved loop has to end, and nothing says that the input does. So the loop has as many turns as no run uses up.
// Crate `vectors` has such a loop too: a common one would take the step as a closure with its contract over list, watch and output (d).
pub fn run<R: Read, W: Write>(list: &mut Lines<'_, R>, w: &mut Watch<'_>, out: &mut Output<'_, W>)
    requires { Room w.old.rows.now w.old.cells.now }
    ensures told { sink_failed out.new.to.now ≡ false → Told (held list.old w.old out.old) (held_by W.contents out.old.to.now) (held_by W.contents out.new.to.now) }
    ensures failed { sink_failed out.old.to.now ≡ true → out.new.to.now ≡ out.old.to.now }
    ensures room { Room w.new.rows.now w.new.cells.now }
    ensures same { SameList list.old list.new × SameLent w.old w.new × SameOut out.old out.new }
{
    let _ = session::watch(w, 1);
    for _ in 0..u64::MAX {
        if !list.more() {
            break;
        }
        step(list, w, out);
    }
    out.flush();
}
