//! A reader that makes renditions of overstruck characters.
ghost use Rattle.std.specs.Prelude.{◌≤◌, length};
ghost use Rattle.std.specs.Io.{ReadsAtMost};

use crate::leads::whole_length;
use crate::linking::copied;
use crate::striker::Striker;
use esc_decode::Encoding;
use std::alloc::Global;
use std::io;
use std::io::{ErrorKind, Read};

// Says how many bytes are read at once.
const BYTES: usize = 8192;

/// Reads the stream of another reader, with renditions (SGR) in the place of overstruck characters:
/// `N BS N` is a bold N, and `_ BS x` or `x BS _` an underlined x, as nroff and man write them (BS
/// is a backspace). A character that is written over another one stays so. Where the stream's own
/// renditions make characters bold, faint or underlined, these stay.
///
/// It keeps a character, and its output of one read. If no renditions are asked for, it reads the
/// stream of the other reader.
#[derive(Drop)]
pub struct Striking<R> {
    inner: R,
    is_on: bool,
    encoding: Encoding,
    striker: Striker,
    // the bytes of a character that has begun
    begun: Vec<u8>,
    // the length of the text that was handed out
    at: usize,
    has_ended: bool,
}

impl<R: Read> Striking<R> {
    /// Returns a reader of the stream of this one, in this encoding, from its beginning; with
    /// renditions, or not. Takes no memory.
    pub fn new(alloc: Global, encoding: Encoding, is_on: bool, inner: R) -> Striking<R> {
        Striking {
            inner,
            is_on,
            encoding,
            striker: Striker::new(alloc, encoding),
            begun: Vec::new(alloc),
            at: 0,
            has_ended: false,
        }
    }

    // Reads more, in place of the text that was handed out.
    fn refill(&mut self) -> io::Result<()> {
        let mut bytes = [0; BYTES];
        let begun = copied(self.begun.as_slice(), &mut bytes);
        let count = self.inner.read(&mut bytes[begun..])?;
        self.striker.made.clear();
        self.at = 0;
        let end = begun.saturating_add(count);
        let read = bytes.get(..end).unwrap_or(&bytes);
        if count == 0 {
            self.has_ended = true;
            return self.take_last(read);
        }
        self.take(read)
    }

    // Takes bytes more, but for a character that has begun.
    fn take(&mut self, bytes: &[u8]) -> io::Result<()> {
        let whole = whole_length(bytes, self.encoding).min(bytes.len());
        let (text, begun) = bytes.split_at(whole);
        self.begun.clear();
        fallible_alloc::extend(&mut self.begun, begun)?;
        Ok(self.striker.take(text)?)
    }

    // Takes the last bytes.
    fn take_last(&mut self, bytes: &[u8]) -> io::Result<()> {
        self.begun.clear();
        self.striker.take(bytes)?;
        Ok(self.striker.settle()?)
    }

    // Hands out the text that was made, as much as there is room for.
    fn hand_out(&mut self, buf: &mut [u8]) -> usize
        ensures { result ≤ length buf.new }
    {
        let at = self.at.min(self.striker.made.len());
        let count = copied(&self.striker.made.as_slice()[at..], buf);
        self.at = at.saturating_add(count);
        count
    }
}

impl<R: Read> Read for Striking<R> {
    fn read(&mut self, buf: &mut [u8]) -> io::Result<usize>
        ensures { ReadsAtMost result buf.new }
    {
        if !self.is_on {
            return self.inner.read(buf);
        }
        for _ in 0..u64::MAX {
            if buf.is_empty() || self.at < self.striker.made.len() || self.has_ended {
                return Ok(self.hand_out(buf));
            }
            self.refill()?;
        }
        Err(io::Error::from(ErrorKind::TimedOut))
    }
}
