// Reads a list of calls on standard input, one to a line, and writes one answer a line. There is no heap: a watch has up to 64 rows.
#![tactic(auto)]

mod input;
mod output;

ghost use Rattle.std.specs.Prelude.{◌≡◌, length};

use lending::{Size, Watch};
use lines::{Lines, Sink, Source};
use output::Output;
use std::io;

// The words of 64 rows.
fn row_words() -> [u64; 1600]
    ensures { 1600 ≡ length result }
{
    [0; 1600]
}

// Their cells.
fn cell_words() -> [u32; 214016]
    ensures { 214016 ≡ length result }
{
    [0; 214016]
}

// No twin of the `main` of `vectors`: a program has one each, and they share how a list and a sink begin and end (d).
fn main(rt: HostRuntime) -> io::Result<()> {
    let mut rows = row_words();
    let mut cells = cell_words();
    let mut ends = [0u32; 3];
    let mut buf = [0u8; 65536];
    let mut out = [0u8; 65536];
    let mut watch = Watch {
        size: Size { rows: 0, cells: 0 },
        rows: &mut rows,
        cells: &mut cells,
        ends: &mut ends,
    };
    let mut list = Lines::new(Source::new(rt.stdin()), &mut buf);
    let mut to = Sink::new(rt.stdout());
    let mut answers = Output::new(&mut to, &mut out);
    input::run(&mut list, &mut watch, &mut answers);
    list.end()?;
    to.end()
}
