// The calls by their words, and one reader for each.
ghost use Rattle.std.specs.Prelude.{◌≡◌, length};
ghost use Rattle.readers.specs.Fields.{left};
ghost use Rattle.grammar.specs.Lines.{keyed, unkeyed, bare_line, key_line, watch_line, claim_line, position_line, judging_line, turn_line, place_line, same_line, horizon_line, bucket_line, bit_line, lend_line, row_line, cell_line, ends_line, line_by};

use crate::{Call, Change, Line, Said};
use heard::Position;
use readers::{Fault, Name, Reader};
use receiver::Part;

// The line, and nothing behind its last field.
fn keyed(r: &mut Reader<'_>, last: Name, key: [u8; 32], line: Line) -> Result<Said, Fault>
    ensures { left result r.new ≡ keyed last key line r.old }
{
    r.ended(last)?;
    Ok(Said { line, key })
}

// The same of a line that names no key.
fn unkeyed(r: &mut Reader<'_>, last: Name, line: Line) -> Result<Said, Fault>
    ensures { left result r.new ≡ unkeyed last line r.old }
{
    keyed(r, last, [0; 32], line)
}

fn bare_line(r: &mut Reader<'_>, line: Line) -> Result<Said, Fault>
    ensures { left result r.new ≡ bare_line line r.old }
{
    unkeyed(r, Name::Word, line)
}

#[tactic(auto, unfolding(crate::specs::Lines::key_line))]
fn key_line(r: &mut Reader<'_>, line: Line) -> Result<Said, Fault>
    ensures { left result r.new ≡ key_line line r.old }
{
    let key = r.key()?;
    keyed(r, Name::Key, key, line)
}

#[tactic(auto, unfolding(crate::specs::Lines::watch_line))]
fn watch_line(r: &mut Reader<'_>) -> Result<Said, Fault>
    ensures { left result r.new ≡ watch_line r.old }
{
    let rows = r.field(Name::Rows)?;
    unkeyed(r, Name::Rows, Line::Watch { rows })
}

#[tactic(auto, unfolding(crate::specs::Lines::claim_line))]
fn claim_line(r: &mut Reader<'_>) -> Result<Said, Fault>
    ensures { left result r.new ≡ claim_line r.old }
{
    let key = r.key()?;
    let site = r.claim()?;
    keyed(r, Name::Alt, key, Line::Call(Call::Claim(site)))
}

#[tactic(auto, unfolding(crate::specs::Lines::position_line))]
fn position_line(r: &mut Reader<'_>) -> Result<Said, Fault>
    ensures { left result r.new ≡ position_line r.old }
{
    let key = r.key()?;
    let (lat, lon) = r.two(Name::Lat, Name::Lon)?;
    let feet = r.feet()?;
    let address = r.field(Name::Address)?;
    let at_ms = r.field(Name::AtMs)?;
    let p = Position {
        lat,
        lon,
        feet,
        address,
        at_ms,
    };
    keyed(r, Name::AtMs, key, Line::Call(Call::Position(p)))
}

#[tactic(auto, unfolding(crate::specs::Lines::judging_line))]
fn judging_line(r: &mut Reader<'_>) -> Result<Said, Fault>
    ensures { left result r.new ≡ judging_line r.old }
{
    let key = r.key()?;
    let now_ms = r.field(Name::NowMs)?;
    let aircraft = r.field(Name::Aircraft)?;
    let call = Call::Judging { now_ms, aircraft };
    keyed(r, Name::Aircraft, key, Line::Call(call))
}

#[tactic(auto, unfolding(crate::specs::Lines::turn_line))]
fn turn_line(r: &mut Reader<'_>) -> Result<Said, Fault>
    ensures { left result r.new ≡ turn_line r.old }
{
    let next = r.field(Name::Next)?;
    let k = r.field(Name::K)?;
    let room = r.field(Name::Room)?;
    unkeyed(r, Name::Room, Line::Turn { next, k, room })
}

// Not one with `same_line`: they share their reader, `four`, and each builds a variant of its own (d).
#[tactic(auto, unfolding(crate::specs::Lines::place_line))]
fn place_line(r: &mut Reader<'_>) -> Result<Said, Fault>
    ensures { left result r.new ≡ place_line r.old }
{
    let (lat1, lon1, lat2, lon2) = r.four()?;
    let line = Line::Place {
        lat1,
        lon1,
        lat2,
        lon2,
    };
    unkeyed(r, Name::Lon2, line)
}

#[tactic(auto, unfolding(crate::specs::Lines::same_line))]
fn same_line(r: &mut Reader<'_>) -> Result<Said, Fault>
    ensures { left result r.new ≡ same_line r.old }
{
    let (lat1, lon1, lat2, lon2) = r.four()?;
    let line = Line::Same {
        lat1,
        lon1,
        lat2,
        lon2,
    };
    unkeyed(r, Name::Lon2, line)
}

#[tactic(auto, unfolding(crate::specs::Lines::horizon_line))]
fn horizon_line(r: &mut Reader<'_>) -> Result<Said, Fault>
    ensures { left result r.new ≡ horizon_line r.old }
{
    let (a, b) = r.two(Name::A, Name::B)?;
    unkeyed(r, Name::B, Line::Horizon { a, b })
}

#[tactic(auto, unfolding(crate::specs::Lines::bucket_line))]
fn bucket_line(r: &mut Reader<'_>) -> Result<Said, Fault>
    ensures { left result r.new ≡ bucket_line r.old }
{
    let height = r.feet()?;
    unkeyed(r, Name::Feet, Line::Bucket(height))
}

#[tactic(auto, unfolding(crate::specs::Lines::bit_line))]
fn bit_line(r: &mut Reader<'_>) -> Result<Said, Fault>
    ensures { left result r.new ≡ bit_line r.old }
{
    let bit = Line::Bit {
        address: r.field(Name::Address)?,
    };
    unkeyed(r, Name::Address, bit)
}

// Not one with `cell_line`: the names of the fields and the variant differ, and there is nothing else in it (d).
#[tactic(auto, unfolding(crate::specs::Lines::lend_line))]
fn lend_line(r: &mut Reader<'_>) -> Result<Said, Fault>
    ensures { left result r.new ≡ lend_line r.old }
{
    let rows = r.field(Name::Rows)?;
    let cells = r.field(Name::Cells)?;
    let change = Change::Lend { rows, cells };
    unkeyed(r, Name::Cells, Line::Change(change))
}

#[tactic(auto, unfolding(crate::specs::Lines::row_line))]
fn row_line(r: &mut Reader<'_>) -> Result<Said, Fault>
    ensures { left result r.new ≡ row_line r.old }
{
    let at = r.field(Name::Number)?;
    let key = r.key()?;
    let (heard, verdict) = r.part()?;
    let (prev, next) = r.links()?;
    let judged_ms = r.clock()?;
    let part = Part {
        heard,
        verdict,
        judged_ms,
    };
    let change = Change::Row {
        at,
        part,
        prev,
        next,
    };
    keyed(r, Name::Now, key, Line::Change(change))
}

#[tactic(auto, unfolding(crate::specs::Lines::cell_line))]
fn cell_line(r: &mut Reader<'_>) -> Result<Said, Fault>
    ensures { left result r.new ≡ cell_line r.old }
{
    let at = r.field(Name::Number)?;
    let word = r.field(Name::Value)?;
    let change = Change::Cell { at, word };
    unkeyed(r, Name::Value, Line::Change(change))
}

#[tactic(auto, unfolding(crate::specs::Lines::ends_line))]
fn ends_line(r: &mut Reader<'_>) -> Result<Said, Fault>
    ensures { left result r.new ≡ ends_line r.old }
{
    let first = r.link(Name::First)?;
    let last = r.link(Name::Last)?;
    let free = r.link(Name::Free)?;
    let change = Change::Ends { first, last, free };
    unkeyed(r, Name::Free, Line::Change(change))
}

// The call that a word names. A `match` on the word's bytes leaves open goals, one for each of its hundred ways out (c). Each word returns: a chain of
// `else if` copies what the line asks for once for each word before its own (b).
#[tactic(auto, using(fields::proofs::Lines::same_is), unfolding(crate::specs::Lines::line_by))]
pub fn line_by(r: &mut Reader<'_>, word: &[u8]) -> Result<Said, Fault>
    ensures { left result r.new ≡ line_by word.now (length word.now) r.old }
{
    if word == b"watch".as_slice() {
        return watch_line(r);
    }
    if word == b"fresh".as_slice() {
        return bare_line(r, Line::Call(Call::Fresh));
    }
    if word == b"drop".as_slice() {
        return bare_line(r, Line::Call(Call::Drop));
    }
    if word == b"check".as_slice() {
        return key_line(r, Line::Call(Call::Check));
    }
    if word == b"takeout".as_slice() {
        return key_line(r, Line::Call(Call::TakeOut));
    }
    if word == b"claim".as_slice() {
        return claim_line(r);
    }
    if word == b"position".as_slice() {
        return position_line(r);
    }
    if word == b"judging".as_slice() {
        return judging_line(r);
    }
    if word == b"turn".as_slice() {
        return turn_line(r);
    }
    if word == b"digest".as_slice() {
        return bare_line(r, Line::Digest);
    }
    if word == b"place".as_slice() {
        return place_line(r);
    }
    if word == b"same".as_slice() {
        return same_line(r);
    }
    if word == b"horizon".as_slice() {
        return horizon_line(r);
    }
    if word == b"bucket".as_slice() {
        return bucket_line(r);
    }
    if word == b"bit".as_slice() {
        return bit_line(r);
    }
    if word == b"lend".as_slice() {
        return lend_line(r);
    }
    if word == b"row".as_slice() {
        return row_line(r);
    }
    if word == b"cell".as_slice() {
        return cell_line(r);
    }
    if word == b"ends".as_slice() {
        return ends_line(r);
    }
    Err(Fault::Unknown { end: word.len() })
}
