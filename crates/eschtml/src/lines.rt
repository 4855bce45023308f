//! The lines of HTML that is written.
ghost use Rattle.std.specs.Io.{WritesAtMost};
ghost use Rattle.std.specs.Io.KnownBytes.{WriteAppends};

use crate::feeds::line_feeds;
use memchr::memrchr;
use std::io;
use std::io::Write;

/// The number of lines that were written, in HTML that consists of tags, characters and character
/// references.
#[derive(Clone, Copy)]
pub struct Lines {
    // those that a line feed ended
    ended: u64,
    // whether characters came after the last line feed
    is_open: bool,
    // whether a tag has begun
    is_tag: bool,
}

impl Lines {
    /// None.
    pub fn new() -> Lines {
        Lines {
            ended: 0,
            is_open: false,
            is_tag: false,
        }
    }

    /// How many there are.
    pub fn count(self) -> u64 {
        self.ended.saturating_add(u64::from(self.is_open))
    }

    /// These lines and those of more HTML. A line feed is never in a tag.
    pub fn and(self, html: &[u8]) -> Lines {
        match memrchr(b'\n', html) {
            None => self.with(html),
            Some(at) => {
                let lines = Lines {
                    ended: self.ended.saturating_add(line_feeds(html)),
                    is_open: false,
                    is_tag: false,
                };
                lines.with(html.get(at.saturating_add(1)..).unwrap_or(&[]))
            }
        }
    }

    // These lines, with more of the last one.
    fn with(self, html: &[u8]) -> Lines {
        let mut lines = self;
        for byte in html {
            match *byte {
                b'<' => lines.is_tag = true,
                b'>' => lines.is_tag = false,
                _ if lines.is_tag => {}
                _ => lines.is_open = true,
            }
        }
        lines
    }
}

/// A writer around another, which counts the lines of the HTML that it is given.
#[derive(Drop)]
pub struct Counting<W> {
    inner: W,
    lines: Lines,
}

impl<W> Counting<W> {
    /// A writer around `inner`, which was given nothing.
    pub fn new(inner: W) -> Counting<W> {
        Counting {
            inner,
            lines: Lines::new(),
        }
    }

    /// The lines, and the other writer.
    pub fn end(self) -> (Lines, W) {
        let Counting { inner, lines } = self;
        (lines, inner)
    }
}

impl<W: Write> Write for Counting<W> {
    ghost contents = { λ c. W.contents c.inner };

    fn write(&mut self, buf: &[u8]) -> io::Result<usize>
        ensures bound { WritesAtMost result buf.now }
        ensures bytes { WriteAppends (W.contents self.old.inner) (W.contents self.new.inner) result
            buf.now }
    {
        let result = self.inner.write(buf);
        if let Ok(n) = &result {
            self.lines = self.lines.and(first(buf, *n));
        }
        result
    }

    fn flush(&mut self) -> io::Result<()> {
        self.inner.flush()
    }
}

// The first bytes, at most so many.
fn first(bytes: &[u8], n: usize) -> &[u8] {
    bytes.get(..n).unwrap_or(bytes)
}
