// What is wrong with a line. Each arm puts words and parts of its own: no table would be plainer (d).
#![tactic(auto, using(crate::proofs::Writing::adds_then, crate::proofs::Writing::adds_shown))]

ghost use Rattle.fields.specs.Text.{part_of};
ghost use Rattle.print.specs.Print.{Adds};
ghost use Rattle.answers.specs.Answers.{shown_text, fault_text};
ghost use Rattle.answers.specs.Words.{◌then◌};

use crate::words;
use print::Text;
use readers::Fault;

fn put_two(to: &mut Text<'_>, first: &[u8], second: &[u8])
    ensures { Adds to.old (first.now then second.now) to.new }
{
    to.put(first);
    to.put(second);
}

// The word that ends at `end` of the line, as far as it can be shown. A place and no word, here and below: a fault with a slice in it would give every
// reply a lifetime (d).
fn put_shown(to: &mut Text<'_>, line: &[u8], end: usize)
    ensures { Adds to.old (shown_text (part_of line.now 0 end)) to.new }
{
    let word = fields::part(line, 0, end);
    to.put(fields::part(word, 0, fields::shown(word)));
}

fn put_unknown(to: &mut Text<'_>, line: &[u8], end: usize)
    ensures { Adds to.old (fault_text (Fault.Unknown end) line.now) to.new }
{
    to.put(b"unknown call '");
    put_shown(to, line, end);
    to.put(b"'");
}

pub fn put_fault(to: &mut Text<'_>, fault: Fault, line: &[u8])
    ensures { Adds to.old (fault_text fault line.now) to.new }
{
    match fault {
        Fault::Missing(name) => put_two(to, words::of_name(name), b" missing"),
        Fault::NotNumber(name) => put_two(to, words::of_name(name), b" is not a number"),
        Fault::NotKey => to.put(b"KEY is not 1 to 64 hex digits"),
        Fault::Extra(name) => put_two(to, b"unexpected field after ", words::of_name(name)),
        Fault::Stray { sep } => to.put(words::of_stray(sep)),
        Fault::StrayReturn => to.put(b"stray carriage return"),
        Fault::TooLong => to.put(b"line is longer than 1024 bytes"),
        Fault::Unknown { end } => put_unknown(to, line, end),
        Fault::TooManyRows => to.put(b"C is above 64, the most rows that are served"),
        Fault::TooManyCells => to.put(b"N is above 214016, the most cells that are served"),
        Fault::NoSuchRow => to.put(b"I is past the rows"),
        Fault::NoSuchCell => to.put(b"I is past the cells"),
    }
}
