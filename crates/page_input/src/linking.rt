//! A reader that makes links of the addresses in a stream.
ghost use Rattle.std.specs.Prelude.{◌≡◌, ◌≤◌, ◌+◌, IfOk, OnOk, length};
ghost use Rattle.std.specs.Io.{ReadsAtMost};
ghost use Rattle.page_input.specs.Linked.{IsPaid, debt};

use crate::linker::Linker;
use esc_decode::Encoding;
use std::alloc::Global;
use std::io;
use std::io::{ErrorKind, Read};

// Says how many bytes are read at once.
const BYTES: usize = 8192;

/// Reads the stream of another reader, with the commands that begin and end a link (OSC 8) around
/// each address in its text: `http://` or `https://`, after no letter, digit or `_`, and the bytes
/// after it up to one that may not be in an address (RFC 3986, 2). The stops that end a sentence,
/// and brackets that it does not open, are not its end. It has at most 2,083 bytes, and 4,096 with
/// these, and stands in no link of the stream.
///
/// All that is read is at most four times as long as the stream. It keeps a word that may end in an
/// address up to its end, but at most 8 KiB and the bytes of one read. If no links are asked for,
/// it reads the stream of the other reader.
#[derive(Drop)]
pub struct Linking<R> {
    inner: R,
    is_on: bool,
    linker: Linker,
    // the length of the text that was handed out
    at: usize,
    has_ended: bool,
}

impl<R: Read> Linking<R> {
    /// Returns a reader of the stream of this one, in this encoding, from its beginning; with
    /// links, or not. Takes no memory.
    pub fn new(alloc: Global, encoding: Encoding, is_on: bool, inner: R) -> Linking<R>
        ensures nothing { debt result ≡ 0 }
        ensures reader { result.inner ≡ inner }
    {
        Linking {
            inner,
            is_on,
            linker: Linker::new(alloc, encoding),
            at: 0,
            has_ended: false,
        }
    }

    // Reads more, in place of the text that was handed out.
    fn refill(&mut self) -> io::Result<()>
        ensures { OnOk result (IsPaid (R.remaining self.old.inner) (R.remaining self.new.inner)
            (debt self.old) (debt self.new)) }
    {
        let mut bytes = [0; BYTES];
        let count = self.inner.read(&mut bytes)?;
        self.linker.made.clear();
        self.at = 0;
        let made = if count == 0 {
            self.has_ended = true;
            self.linker.settle()
        } else {
            self.linker.take(&bytes[..count])
        };
        Ok(made?)
    }

    // Hands out the text that was made, as much as there is room for.
    fn hand_out(&mut self, buf: &mut [u8]) -> usize
        ensures bound { result ≤ length buf.new }
        ensures paid { result + debt self.new ≤ debt self.old }
        ensures same { self.new.inner ≡ self.old.inner }
    {
        let at = self.at.min(self.linker.made.len());
        let count = copied(&self.linker.made.as_slice()[at..], buf);
        self.at = at.saturating_add(count);
        count
    }
}

impl<R: Read> Read for Linking<R> {
    fn read(&mut self, buf: &mut [u8]) -> io::Result<usize>
        ensures bound { ReadsAtMost result buf.new }
        ensures paid { IfOk result (λ n. IsPaid (R.remaining self.old.inner)
            (R.remaining self.new.inner) (debt self.old) (n + debt self.new)) }
    {
        if !self.is_on {
            return self.inner.read(buf);
        }
        for _ in 0..u64::MAX {
            if buf.is_empty() || self.at < self.linker.made.len() || self.has_ended {
                return Ok(self.hand_out(buf));
            }
            self.refill()?;
        }
        Err(io::Error::from(ErrorKind::TimedOut))
    }
}

/// Copies the first of these bytes, as many as there is room for, and returns how many.
pub(crate) fn copied(bytes: &[u8], buf: &mut [u8]) -> usize
    ensures bound { result ≤ length buf.new }
    ensures few { result ≤ length bytes.now }
{
    let count = bytes.len().min(buf.len());
    buf[..count].copy_from_slice(&bytes[..count]);
    count
}
