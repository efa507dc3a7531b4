// A reader or a writer, with the first error that it gave. After an error nothing more is read or written, and whoever runs the program asks for it at the end.
// That nothing changes then relates two states of a stream, so each function over one says it: no field holds it (d).
ghost use Rattle.std.specs.Prelude.{◌≡◌, ◌<◌, ◌≤◌, true, false, length, take};
ghost use Rattle.std.specs.Io.KnownBytes.{Appends, Consumes, IsAtEnd};
ghost use Rattle.lines.specs.Streams.{inner_of, left_in, held_by, source_failed, sink_failed, ended};

use std::io::{Read, Result, Write};

#[derive(Drop)]
pub struct Stream<T> {
    inner: T,
    said: Result<()>,
}

pub type Source<R> = Stream<R>;

pub type Sink<W> = Stream<W>;

impl<T> Stream<T> {
    pub fn new(inner: T) -> Stream<T>
        ensures inner { inner_of result ≡ inner }
        ensures source { source_failed result ≡ false }
        ensures sink { sink_failed result ≡ false }
    {
        Stream {
            inner,
            said: Ok(()),
        }
    }

    // The error that came, if one did.
    pub fn end(self) -> Result<()>
    where
        T: Drop,
        ensures { result ≡ ended self }
    {
        let Stream { said, .. } = self;
        said
    }
}

impl<R: Read> Stream<R> {
    // How many bytes came into the buffer: none at the end of the input, and none at an error or after one.
    pub fn read(&mut self, buf: &mut [u8]) -> usize
        ensures within { result ≤ length buf.new }
        ensures bytes { Consumes (left_in R.remaining self.old) (left_in R.remaining self.new) (take result buf.new) }
        ensures none { result ≡ 0 → 0 < length buf.new → source_failed self.new ≡ false → IsAtEnd (left_in R.remaining self.new) }
        ensures error { source_failed self.new ≡ true → result ≡ 0 }
        ensures after { source_failed self.old ≡ true → (self.new ≡ self.old) × (buf.new ≡ buf.old) }
    {
        if self.said.is_err() {
            return 0;
        }
        match self.inner.read(buf) {
            Ok(came) => came,
            Err(e) => {
                self.said = Err(e);
                0
            }
        }
    }
}

impl<W: Write> Stream<W> {
    // Writes all the bytes, unless an error came before or comes now.
    pub fn write(&mut self, bytes: &[u8])
        ensures bytes { sink_failed self.new ≡ false → Appends (held_by W.contents self.old) (held_by W.contents self.new) bytes.now }
        ensures after { sink_failed self.old ≡ true → self.new ≡ self.old }
    {
        if self.said.is_ok() {
            self.said = self.inner.write_all(bytes);
        }
    }
}
