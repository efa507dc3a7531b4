// Where the answers go: they wait in a large buffer that is lent, and are written where it has little room left.
ghost use Rattle.std.specs.Prelude.{◌≤◌, ◌≡◌, true, false, length};
ghost use Rattle.std.specs.Io.KnownBytes.{Appends};
ghost use Rattle.fields.specs.Text.{part_of};
ghost use Rattle.lines.specs.Streams.{held_by, sink_failed};

use lines::Sink;
use print::Text;
use std::io::Write;

#[derive(Drop)]
pub struct Output<'a, W> {
    pub to: &'a mut Sink<W>,
    // The answers that wait.
    pub text: Text<'a>,
    // The lines that were read.
    pub lines: u64,
    ghost large: { 65536 ≤ length text.out.now },
}

impl<'a, W: Write> Output<'a, W> {
    ghost use Rattle.std.specs.Prelude.{◌≡◌, true, false};
    ghost use Rattle.std.specs.Io.KnownBytes.{Appends};
    ghost use Rattle.fields.specs.Text.{part_of};
    ghost use Rattle.lines.specs.Streams.{held_by, sink_failed};
    ghost use Rattle.calls.specs.Inputs.{room_of, written_of};
    ghost use Rattle.calls.specs.Same.{SameOut};

    // No line was read yet.
    pub fn new(to: &'a mut Sink<W>, buf: &'a mut [u8]) -> Output<'a, W>
        requires { 65536 ≤ length buf.old }
        ensures to { result.to.now ≡ to.old }
        ensures buffer { result.text.out.now ≡ buf.old }
        ensures waits { (result.text.n ≡ 0) × (result.lines ≡ 0) }
        ensures same { (result.to.ghost_name ≡ to.entry.ghost_name) × (result.text.out.ghost_name ≡ buf.entry.ghost_name) }
    {
        Output {
            to,
            text: Text { out: buf, n: 0 },
            lines: 0,
        }
    }

    // Writes the waiting answers where the buffer has little room left.
    pub fn room(&mut self)
        ensures left { self.new.text.n ≡ room_of self.old.text.n }
        ensures kept { (self.new.text.out.now ≡ self.old.text.out.now) × (self.new.lines ≡ self.old.lines) }
        ensures written { sink_failed self.new.to.now ≡ false → Appends (held_by W.contents self.old.to.now) (held_by W.contents self.new.to.now) (written_of self.old.text.out.now self.old.text.n) }
        ensures few { self.old.text.n ≤ 61000 → self.new.to.now ≡ self.old.to.now }
        ensures failed { sink_failed self.old.to.now ≡ true → self.new.to.now ≡ self.old.to.now }
        ensures same { SameOut self.old self.new }
    {
        if self.text.n > 61000 {
            self.flush();
            self.text.n = 0;
        }
    }

    // Writes the waiting answers.
    pub fn flush(&mut self)
        ensures kept { (self.new.text.out.now ≡ self.old.text.out.now) × (self.new.text.n ≡ self.old.text.n) × (self.new.lines ≡ self.old.lines) }
        ensures written { sink_failed self.new.to.now ≡ false → Appends (held_by W.contents self.old.to.now) (held_by W.contents self.new.to.now) (part_of self.old.text.out.now 0 self.old.text.n) }
        ensures failed { sink_failed self.old.to.now ≡ true → self.new.to.now ≡ self.old.to.now }
        ensures same { SameOut self.old self.new }
    {
        let bytes = self.text.bytes();
        self.to.write(bytes);
    }
}
