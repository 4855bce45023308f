//! A reader that looks for strings that do not end.
ghost use Rattle.std.specs.Io.{ReadsAtMost};
ghost use Rattle.std.specs.Io.KnownBytes.{ReadConsumes};

use crate::strings::{Lost, Strings};
use esc_decode::Encoding;
use std::alloc::Global;
use std::io;
use std::io::Read;

/// A reader around another, which follows the strings in the text that it reads.
#[derive(Drop)]
pub struct Heeding<R> {
    inner: R,
    strings: Strings,
}

impl<R: Read + Drop> Heeding<R> {
    /// A reader of a stream in this encoding, from its beginning. Takes no memory.
    pub fn new(alloc: Global, encoding: Encoding, inner: R) -> Heeding<R> {
        Heeding {
            inner,
            strings: Strings::new(alloc, encoding),
        }
    }

    /// The string that is unfinished at the end of the stream, and the other reader.
    pub fn end(self) -> (Option<Lost>, R) {
        let Heeding { inner, strings } = self;
        (strings.lost(), inner)
    }
}

impl<R: Read> Read for Heeding<R> {
    ghost remaining = { λ h. R.remaining h.inner };

    fn read(&mut self, buf: &mut [u8]) -> io::Result<usize>
        ensures bound { ReadsAtMost result buf.new }
        ensures bytes { ReadConsumes (R.remaining self.old.inner) (R.remaining self.new.inner)
            result buf.new }
    {
        let result = self.inner.read(buf);
        if let Ok(n) = &result {
            self.strings.take(buf.get(..*n).unwrap_or(buf));
        }
        result
    }
}
