// What was counted, as a row of a table.
ghost use Rattle.std.specs.Prelude.{◌≡◌, true, false};
ghost use Rattle.std.specs.Io.KnownBytes.{Appends};
ghost use Rattle.fields.specs.Text.{same_bytes};
ghost use Rattle.lines.specs.Streams.{held_by, sink_failed};
ghost use Rattle.vectors.specs.Lines.{word_of};
ghost use Rattle.vectors.specs.Replays.{word_count};
ghost use Rattle.vectors.specs.Print.{Put, count_text, row_text, shown_by, shown_text};

use crate::read;
use crate::replay::Counts;
use lines::Sink;
use print::Text;
use std::io::Write;

// A number and what it counts. `Put` says of texts that do not fit too what is put, which `Adds` leaves open (d).
fn put_count(to: &mut Text<'_>, n: u64, what: &[u8])
    ensures { Put to.old.out.now to.old.n (count_text n what.now) to.new.out.now to.new.n }
{
    to.put_decimal(n);
    to.put(what);
}

// NAME: N vectors, N differ, N unread
fn put_counts(to: &mut Text<'_>, c: Counts, name: &[u8])
    ensures { Put to.old.out.now to.old.n (row_text c name.now) to.new.out.now to.new.n }
{
    to.put(name);
    to.put(b": ");
    put_count(to, c.vectors, b" vectors, ");
    put_count(to, c.differ, b" differ, ");
    put_count(to, c.unread, b" unread\n");
}

// Where a line is `count NAME`, writes what was counted and answers how many bytes that is: no caller asks, but it was promised (a).
#[tactic(auto, using(fields::proofs::Lines::same_is), unfolding(crate::specs::Print::shown_by, crate::specs::Print::shown_text))]
pub fn show<W: Write>(to: &mut Sink<W>, c: Counts, t: &[u8]) -> usize
    ensures count { result ≡ shown_by c t.now }
    ensures written { sink_failed to.new ≡ false → Appends (held_by W.contents to.old) (held_by W.contents to.new) (shown_text c t.now) }
    ensures kept { same_bytes (word_of 0 t.now) word_count ≡ false → to.new ≡ to.old }
    ensures failed { sink_failed to.old ≡ true → to.new ≡ to.old }
{
    if read::first(t) == b"count".as_slice() {
        let mut out = [0u8; 2048];
        let mut row = Text {
            out: &mut out,
            n: 0,
        };
        put_counts(&mut row, c, fields::part(t, 6, t.len()));
        to.write(row.bytes());
        return row.n;
    }
    0
}
