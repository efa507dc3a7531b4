// One line of a list of calls, read into a value: its fields are read in turn by `readers`, and the first thing that is wrong is what the line comes to.
#![tactic(auto)]

mod kinds;

ghost use Rattle.std.specs.Prelude.{◌≡◌};
ghost use Rattle.grammar.specs.Lines.{return_at_end, text_of, line_of};

use heard::Position;
use readers::{Fault, Reader};
use receiver::Part;
use sites::Site;

// The seven calls, but for the key that most of them name.
#[derive(Clone, Copy)]
pub enum Call {
    Fresh,
    Drop,
    Check,
    TakeOut,
    Claim(Option<Site>),
    Position(Position),
    Judging { now_ms: u64, aircraft: u64 },
}

// A line that writes the watch word by word; a row's key stands beside it. Links and ends are row numbers as they are lent, none the largest u32 (a).
#[derive(Clone, Copy)]
pub enum Change {
    Lend {
        rows: u32,
        cells: u32,
    },
    Row {
        at: u32,
        part: Part,
        prev: u32,
        next: u32,
    },
    Cell {
        at: u32,
        word: u32,
    },
    // Not `scans::Ends`: a line's three numbers, in its order; this crate knows no chains (d).
    Ends {
        first: u32,
        last: u32,
        free: u32,
    },
}

// What a line asks for.
#[derive(Clone, Copy)]
pub enum Line {
    Watch {
        rows: u32,
    },
    Call(Call),
    // A tick of the turn keeper, with a list of so many keys.
    Turn {
        next: u32,
        k: u32,
        room: u32,
    },
    Digest,
    // Four numbers here and below, as `sites::place` takes them and C has them (a).
    Place {
        lat1: f64,
        lon1: f64,
        lat2: f64,
        lon2: f64,
    },
    Same {
        lat1: f64,
        lon1: f64,
        lat2: f64,
        lon2: f64,
    },
    Horizon {
        a: f64,
        b: f64,
    },
    Bucket(Option<i32>),
    Bit {
        address: u32,
    },
    Change(Change),
}

// A line, and the key that it names: zeros where it names none, which nothing reads (d).
#[derive(Clone, Copy)]
pub struct Said {
    pub line: Line,
    pub key: [u8; 32],
}

#[tactic(auto, unfolding(crate::specs::Lines::return_at_end))]
fn ends_in_return(t: &[u8]) -> bool
    ensures { result ≡ return_at_end t.now }
{
    t.last() == Some(&b'\r')
}

// A line's text, its comment taken off: its first field is the call's word.
#[tactic(auto, unfolding(crate::specs::Lines::text_of, crate::specs::Lines::call_of))]
fn text(t: &[u8]) -> Result<Option<Said>, Fault>
    ensures { result ≡ text_of t.now }
{
    if ends_in_return(t) {
        return Err(Fault::StrayReturn);
    }
    let Some(word) = fields::next_field(t, 0, b' ')? else {
        return Ok(None);
    };
    let mut r = Reader::new(t, word.next, b' ');
    Ok(Some(kinds::line_by(&mut r, word.bytes)?))
}

// What a line of these bytes asks for, if it asks for something.
#[tactic(auto, unfolding(crate::specs::Lines::line_of))]
pub fn read(s: &[u8]) -> Result<Option<Said>, Fault>
    ensures { result ≡ line_of s.now }
{
    let end = fields::text_end(s);
    if end == 0 {
        return Ok(None);
    }
    text(fields::part(s, 0, end))
}
