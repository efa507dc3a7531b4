// An input, line by line, through a buffer that the caller lends.
#![tactic(auto)]

ghost use Rattle.std.specs.Prelude.{◌≡◌, ◌≤◌, true, length};
ghost use Rattle.lines.specs.Lines.{Within, start_of, line_of, last_of, kept_of, taken_of, Refilled, ReadOn, Next, bytes_of};
ghost use Rattle.lines.specs.Streams.{left_in, source_failed, ended};

mod streams;

use std::io::{Read, Result};
pub use streams::{Sink, Source, Stream};

// What was read and not yet given lies from `at` to `have` in the buffer. Places and no slices, here and below: there is one buffer, no heap, and it is refilled (a).
#[derive(Clone, Copy)]
pub struct Input {
    pub at: usize,
    pub have: usize,
    // The first bytes of this line were dropped, since it is too long.
    pub long: bool,
    pub more: bool,
}

// Three cases, of which two hold nothing: as an `Option<Result<.., TooLong>>` each `match` would name the same three (d).
#[derive(Clone, Copy)]
pub enum Line {
    // It lies from `start` to `end` in the buffer.
    At { start: usize, end: usize },
    // It has more than 1,024 bytes.
    TooLong,
    // No line is whole yet, or none is left.
    Nothing,
}

// What a turn comes to.
#[derive(Clone, Copy)]
pub struct Step {
    pub input: Input,
    pub line: Line,
}

// Nothing was read yet.
const START: Input = Input {
    at: 0,
    have: 0,
    long: false,
    more: true,
};

// `start`, `next_line` and `bytes` are for callers that keep the source and the buffer by themselves; `Lines` holds both, by way of them.
pub fn start() -> Input
    ensures { result ≡ start_of }
{
    START
}

// A source, its buffer, and where the bytes that wait lie in it.
#[derive(Drop)]
pub struct Lines<'a, R> {
    pub source: Source<R>,
    pub buf: &'a mut [u8],
    pub input: Input,
    pub ghost within: { Within input buf.now },
}

// A whole line, given that it is not too long.
fn whole(long: bool, start: usize, end: usize) -> Line
    requires { start ≤ end }
    ensures { result ≡ line_of long start end }
{
    if long {
        return Line::TooLong;
    }
    if end - start > 1024 {
        return Line::TooLong;
    }
    Line::At { start, end }
}

// The end of the input: the `have` bytes at the front of the buffer are a last line with no line end.
fn last(have: usize, long: bool) -> Line
    ensures { result ≡ last_of long have }
{
    if long {
        return Line::TooLong;
    }
    if have == 0 {
        return Line::Nothing;
    }
    whole(false, 0, have)
}

// Bytes that hold no line end: they stay where they can still be a line, and are dropped where they are too many.
fn kept(s: Input) -> Input
    requires { s.at ≤ s.have }
    ensures { (result ≡ kept_of s) × (result.at ≤ result.have) × (result.have ≡ s.have) }
{
    if s.have - s.at > 1024 {
        Input {
            at: s.have,
            long: true,
            more: true,
            ..s
        }
    } else {
        s
    }
}

// The next line of those that were read, its line end passed over; nothing where no line is whole.
fn taken(s: Input, buf: &[u8]) -> Step
    requires { Within s buf.now }
    ensures { (result ≡ taken_of s buf.now) × Within result.input buf.now }
{
    let Some(n) = fields::first_place(&buf[s.at..s.have], b'\n') else {
        return Step {
            input: s,
            line: Line::Nothing,
        };
    };
    let end = s.at + n;
    Step {
        input: Input {
            at: end + 1,
            have: s.have,
            ..START
        },
        line: whole(s.long, s.at, end),
    }
}

// Reads on behind the bytes that are left, which are moved to the front. Where nothing came they are the last line.
fn refill<R: Read>(s: Input, from: &mut Source<R>, buf: &mut [u8]) -> Step
    requires { Within s buf.old }
    ensures is { (Within result.input buf.new) × (Refilled s result) }
    ensures came { ReadOn s (left_in R.remaining from.old) (left_in R.remaining from.new) buf.old buf.new result }
    ensures failed { source_failed from.old ≡ true → from.new ≡ from.old }
{
    let k = kept(s);
    let left = fields::to_front(buf, k.at, k.have);
    let came = from.read(&mut buf[left..]);
    if came == 0 {
        return Step {
            input: Input {
                more: false,
                ..START
            },
            line: last(left, k.long),
        };
    }
    Step {
        input: Input {
            have: left + came,
            long: k.long,
            ..START
        },
        line: Line::Nothing,
    }
}

// The next line, or more bytes where no line is whole. After the last line `more` is false.
pub fn next_line<R: Read>(s: Input, from: &mut Source<R>, buf: &mut [u8]) -> Step
    requires { Within s buf.old }
    ensures next { (Within result.input buf.new) × (Next s (taken_of s buf.old) result (taken_of s buf.old).line) }
    ensures whole { ((taken_of s buf.old).line ≡ Line.Nothing → ⊥) → (from.new ≡ from.old) × (buf.new ≡ buf.old) }
    ensures came { (taken_of s buf.old).line ≡ Line.Nothing → ReadOn s (left_in R.remaining from.old) (left_in R.remaining from.new) buf.old buf.new result }
    ensures failed { source_failed from.old ≡ true → from.new ≡ from.old }
{
    let t = taken(s, buf);
    match t.line {
        Line::Nothing => refill(s, from, buf),
        Line::TooLong | Line::At { .. } => t,
    }
}

// The bytes of a line, none where there is no whole one.
pub fn bytes(line: Line, buf: &[u8]) -> &[u8]
    ensures { result.now ≡ bytes_of buf.now line }
{
    match line {
        Line::At { start, end } => fields::part(buf, start, end),
        Line::TooLong | Line::Nothing => &[],
    }
}

impl<'a, R: Read> Lines<'a, R> {
    // Nothing was read yet.
    pub fn new(source: Source<R>, buf: &'a mut [u8]) -> Lines<'a, R>
        ensures source { result.source ≡ source }
        ensures buffer { result.buf.ghost_name ≡ buf.entry.ghost_name }
        ensures bytes { result.buf.now ≡ buf.old }
        ensures input { result.input ≡ start_of }
    {
        Lines {
            source,
            buf,
            input: start(),
        }
    }

    // The next line, or more bytes where no line is whole. After the last line `more` is false.
    pub fn next_line(&mut self) -> Line
        ensures next { Next self.old.input (taken_of self.old.input self.old.buf.now) (record { input = self.new.input; line = result }) (taken_of self.old.input self.old.buf.now).line }
        ensures whole { ((taken_of self.old.input self.old.buf.now).line ≡ Line.Nothing → ⊥) → (self.new.source ≡ self.old.source) × (self.new.buf.now ≡ self.old.buf.now) }
        ensures came { (taken_of self.old.input self.old.buf.now).line ≡ Line.Nothing → ReadOn self.old.input (left_in R.remaining self.old.source) (left_in R.remaining self.new.source) self.old.buf.now self.new.buf.now (record { input = self.new.input; line = result }) }
        ensures failed { source_failed self.old.source ≡ true → self.new.source ≡ self.old.source }
        ensures buffer { (self.new.buf.ghost_name ≡ self.old.buf.ghost_name) × (length self.new.buf.now ≡ length self.old.buf.now) }
    {
        let next = next_line(self.input, &mut self.source, self.buf);
        self.input = next.input;
        next.line
    }

    // The bytes of a line, none where there is no whole one.
    pub fn bytes(&self, line: Line) -> &[u8]
        ensures { result.now ≡ bytes_of self.now.buf.now line }
    {
        bytes(line, self.buf)
    }

    // More may come: the input has not ended.
    pub fn more(&self) -> bool
        ensures { result ≡ self.now.input.more }
    {
        self.input.more
    }

    // The error that came, if one did.
    pub fn end(self) -> Result<()>
    where
        R: Drop,
        ensures { result ≡ ended self.entry.source }
    {
        let Lines {
            source,
            buf: _,
            input: _,
        } = self;
        source.end()
    }
}
