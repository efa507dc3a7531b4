// A list of calls, taken apart: a line's text, its fields, its words. Nothing here knows a call.
#![tactic(auto)]

ghost use Rattle.std.specs.Prelude.{◌≡◌, ◌≤◌, ◌<◌, ◌-◌, length, IfSome};
ghost use Rattle.fields.specs.Text.{first_of, first_in, back_over, text_end, seen, field_at, part_of, shown_of, moved_to};

// A field of a text, and where the next one starts.
#[derive(Clone, Copy)]
pub struct Field<'a> {
    pub bytes: &'a [u8],
    pub next: usize,
}

// A separator that separates nothing.
#[derive(Clone, Copy)]
pub struct Stray {
    pub sep: u8,
}

// Where a byte first stands, if it stands in the slice.
pub fn first_place(s: &[u8], byte: u8) -> Option<usize>
    ensures is { result ≡ first_in byte s.now }
    ensures inside { IfSome result (λ n. n < length s.now) }
{
    s.iter().position(|&b| b == byte)
}

// How many bytes stand before the first that is this one, all where none is: where to cut.
pub fn find(s: &[u8], byte: u8) -> usize
    ensures { result ≡ first_of byte s.now }
{
    first_place(s, byte).unwrap_or(s.len())
}

// How long a part is without the spaces at its end.
fn back_over(part: &[u8]) -> usize
    ensures { result ≡ back_over part.now (length part.now) }
{
    match part.iter().rposition(|&b| b != b' ') {
        Some(n) => n + 1,
        None => 0,
    }
}

// Where a line's text ends and its comment starts, if it has one.
pub fn text_end(line: &[u8]) -> usize
    ensures { result ≡ text_end line.now }
{
    match first_place(line, b'#') {
        Some(hash) => back_over(&line[..hash]),
        None => line.len(),
    }
}

// The field that starts at `from`, none past the end of the text. The next one starts past the `sep` after it. A place and no rest of the text:
// an empty rest would not tell the end from a `sep` at the end (d).
pub fn next_field(t: &[u8], from: usize, sep: u8) -> Result<Option<Field<'_>>, Stray>
    ensures { seen result ≡ field_at sep t.now from }
{
    if from > t.len() {
        return Ok(None);
    }
    let rest = &t[from..];
    let n = find(rest, sep);
    if n == 0 {
        return Err(Stray { sep });
    }
    Ok(Some(Field {
        bytes: &rest[..n],
        next: from + n + 1,
    }))
}

// A part of the bytes, empty where there is no such part. Two numbers, here, in `to_front` and in `lines`: callers may have an end past the slice or before the start, which is empty (d).
pub fn part(s: &[u8], start: usize, end: usize) -> &[u8]
    ensures { result.now ≡ part_of s.now start end }
{
    s.get(start..end).unwrap_or(&[])
}

// How many bytes of a word an answer may show.
pub fn shown(s: &[u8]) -> usize
    ensures { result ≡ shown_of s.now }
{
    for (i, c) in s.iter().enumerate() {
        if i == 32 || !c.is_ascii_graphic() {
            return i;
        }
    }
    s.len()
}

// Moves the bytes from `start` to `end` to the front of a buffer, and answers how many they are.
// Its clause says that the two are a range, as in `lines`; of `numbers::read_on` the same words bound a number (d).
pub fn to_front(buf: &mut [u8], start: usize, end: usize) -> usize
    requires { (start ≤ end) × (end ≤ length buf.old) }
    ensures { (result ≡ end - start) × (buf.new ≡ moved_to buf.old start (end - start)) }
{
    buf.copy_within(start..end, 0);
    end - start
}
