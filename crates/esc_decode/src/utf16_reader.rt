//! A reader of UTF-8 for the text that another reads in UTF-16.
ghost use Rattle.std.specs.Prelude.{◌≡◌, ◌≤◌, length};

use crate::byte_order::ByteOrder;
use crate::utf16_decoder::Utf16Decoder;
use std::alloc::{Allocator, Global};
use std::io;
use std::io::{ErrorKind, Read};

// How many bytes are read at once.
const BYTES: usize = 8192;

/// Reads as UTF-8 the text that another reader has in UTF-16, as [`Utf16Decoder`] decodes it. It
/// keeps the text of one read, as UTF-8.
#[derive(Drop)]
pub struct Utf16Reader<R, A: Allocator = Global> {
    inner: R,
    decoder: Utf16Decoder,
    // the text that was read, and the number of bytes of it that were handed out
    text: Vec<u8, A>,
    at: usize,
    has_ended: bool,
}

impl<R: Read, A: Allocator> Utf16Reader<R, A> {
    /// A reader of the text of this one, from its beginning. Takes no memory.
    pub fn new(alloc: A, order: ByteOrder, inner: R) -> Utf16Reader<R, A> {
        Utf16Reader {
            inner,
            decoder: Utf16Decoder::new(order),
            text: Vec::new(alloc),
            at: 0,
            has_ended: false,
        }
    }

    // Reads more, in place of the text that was handed out.
    fn refill(&mut self) -> io::Result<()> {
        let mut bytes = [0; BYTES];
        let count = self.inner.read(&mut bytes)?;
        self.text.clear();
        self.at = 0;
        match bytes.get(..count) {
            Some(read) if count > 0 => self.decoder.push(read, &mut self.text)?,
            _ => {
                self.has_ended = true;
                self.decoder.end(&mut self.text)?;
            }
        }
        Ok(())
    }

    // Hands out the text that was read, as much as there is room for.
    fn hand_out(&mut self, buf: &mut [u8]) -> usize
        ensures { result ≤ length buf.new }
    {
        let at = self.at;
        let count = match self.text.as_slice().get(at..) {
            Some(rest) => copied(rest, buf),
            None => 0,
        };
        self.at = at.saturating_add(count);
        count
    }
}

impl<R: Read, A: Allocator> Read for Utf16Reader<R, A> {
    fn read(&mut self, buf: &mut [u8]) -> io::Result<usize> {
        for _ in 0..u64::MAX {
            if buf.is_empty() || self.at < self.text.len() || self.has_ended {
                return Ok(self.hand_out(buf));
            }
            self.refill()?;
        }
        Err(io::Error::from(ErrorKind::TimedOut))
    }
}

// Copies the first of these bytes, as many as there is room for, and returns how many.
fn copied(bytes: &[u8], buf: &mut [u8]) -> usize
    ensures { result ≤ length buf.new }
{
    let count = bytes.len().min(buf.len());
    buf[..count].copy_from_slice(&bytes[..count]);
    count
}
